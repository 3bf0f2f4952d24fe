//! Resources and function types.
ghost use Rattle.std.specs.Prelude.{◌≡◌, MatchResult, None};
ghost use Rattle.wac_script.specs.lines.Words.{spelled};
ghost use Rattle.wac_script.specs.labels.Things.{things_of, IsWordMemory};
ghost use Rattle.wac_script.specs.private.Unread.{Reads, ReadsSuch};
ghost use Rattle.wac_script.specs.labels.Shapes.{IsFunc, HasParamsOnce, IsReturned, IsAliasOf, IsOwnedAliasOf};

use crate::labels::faults::{WordError, WordFault, refused};
use crate::labels::things::Things;
use wac_graph::types::{FuncType, Resource, ValueType};

impl Things {
    /// Returns a new resource.
    ///
    /// # Errors
    /// A [`WordError`].
    pub(crate) fn resource(&self, name: &str) -> Result<Resource, WordError>
        ensures { MatchResult result (λ r. r ≡ record { name = name.now; alias = None }) IsWordMemory }
    {
        let resource = Resource::new(self.alloc, name)?;
        Ok(resource)
    }

    /// Returns an alias of a resource that no interface owns.
    ///
    /// # Errors
    /// A [`WordError`].
    pub(crate) fn resource_alias(&self, name: &str, source: &str) -> Result<Resource, WordError>
        ensures { Reads (IsAliasOf (things_of self.now) name.now source.now) result }
    {
        let source = self.resource_of(source)?;
        let resource = Resource::alias(self.alloc, name, None, source)?;
        Ok(resource)
    }

    /// Returns an alias of a resource that an interface owns.
    ///
    /// # Errors
    /// A [`WordError`].
    pub(crate) fn owned_alias(
        &self,
        name: &str,
        source: &str,
        owner: &str,
    ) -> Result<Resource, WordError>
        ensures { Reads (IsOwnedAliasOf (things_of self.now) name.now source.now owner.now) result }
    {
        let source = self.resource_of(source)?;
        let owner = self.interface_of(owner)?;
        let resource = Resource::alias(self.alloc, name, Some(owner), source)?;
        Ok(resource)
    }

    /// Returns the type of the result that the words after `->` say.
    fn returned(&self, words: &[&str]) -> Result<Option<ValueType>, WordError>
        ensures { Reads (IsReturned (things_of self.now) (spelled words.now)) result }
    {
        match words {
            [] => Ok(None),
            [word] => {
                let value = self.value(word)?;
                Ok(Some(value))
            }
            _ => Err(refused(self.alloc, WordFault::OtherWords, "->")),
        }
    }

    /// Returns the function type of parameters `NAME=TYPE` and the words after `->`.
    ///
    /// # Errors
    /// A [`WordError`].
    pub(crate) fn func(
        &self,
        params: &[&str],
        results: &[&str],
        is_async: bool,
    ) -> Result<FuncType, WordError>
        ensures { ReadsSuch (IsFunc (things_of self.now) (spelled params.now) (spelled results.now) is_async) HasParamsOnce result }
    {
        let returned = self.returned(results)?;
        let params = self.fields(params)?;
        let func = FuncType::new(self.alloc, &params, returned, is_async)?;
        Ok(func)
    }
}
