//! A map from positions to numbers that is cleared in constant time.
//!
//! Each number has the round in which it was put. Numbers of earlier rounds do not count, so `clear` begins a new round
//! and the memory is used again.
ghost use Rattle.std.specs.Prelude.{◌≡◌, ◌<◌, ℕ, [], None, Some, cond, nat_eq, length, IfSome, OnOk, OnErr};
ghost use Rattle.wac_merge_tables.specs.private.tables.Numbers.{number_at};

use std::alloc::{AllocError, Global};
use std::marker::Model;

/// A number and the round in which it was put.
#[derive(Clone, Copy)]
struct Put {
    round: u32,
    number: u32,
}

/// A map from positions to numbers below 2 ^ 32.
#[derive(Drop)]
pub struct Numbers {
    puts: Vec<Put>,
    /// The current round, at least 1. No number is of a later round.
    round: u32,
}

/// Returns how many positions to make room for, so that `position` is one of them. The capacity is used if it is
/// enough.
fn room_for(position: usize, capacity: usize) -> Option<usize>
    ensures { IfSome result (λ count. position < count) }
{
    if position < capacity {
        return Some(capacity);
    }
    position.checked_add(1)
}

impl Model for Numbers {
    ghost use Rattle.std.specs.Prelude.{List, ℕ, Option, map};
    ghost use Rattle.wac_merge_tables.specs.private.tables.Numbers.{IsTimely, number_in};

    ghost Value = { List (Option ℕ) };

    ghost view = { λ n. map (number_in n.round) n.puts.items };

    ghost invariant = { λ n. IsTimely n.puts.items n.round };
}

impl Numbers {
    /// Creates an empty map.
    pub fn new(alloc: Global) -> Numbers
        ensures { result ≡ [] }
    {
        Numbers {
            puts: Vec::new(alloc),
            round: 1,
        }
    }

    /// Removes all numbers.
    pub fn clear(&mut self)
        ensures { (k : ℕ) → number_at self.new k ≡ None }
    {
        if self.round < u32::MAX {
            self.round += 1;
        } else {
            self.puts.clear();
            self.round = 1;
        }
    }

    /// Returns the number at a position.
    pub fn get(&self, position: usize) -> Option<usize>
        ensures { result ≡ number_at self.now position }
    {
        if position >= self.puts.len() {
            return None;
        }
        let put = self.puts[position];
        if put.round == self.round {
            Some(put.number as usize)
        } else {
            None
        }
    }

    /// Makes room up to a position.
    fn make_room(&mut self, position: usize) -> Result<(), AllocError>
        ensures there { OnOk result (position < length self.new) }
        ensures same { (k : ℕ) → number_at self.new k ≡ number_at self.old k }
    {
        if position < self.puts.len() {
            return Ok(());
        }
        let Some(count) = room_for(position, self.puts.capacity()) else {
            return Err(AllocError);
        };
        self.puts.resize(
            count,
            Put {
                round: 0,
                number: 0,
            },
        )?;
        Ok(())
    }

    /// Puts a number at a position.
    ///
    /// # Errors
    /// - [`AllocError`] if out of memory, or if the number is 2 ^ 32 or more.
    ///
    /// On an error the map is unchanged.
    pub fn put(&mut self, position: usize, number: usize) -> Result<(), AllocError>
        ensures put { OnOk result ((k : ℕ) → number_at self.new k ≡ cond (nat_eq position k) (Some number) (number_at self.old k)) }
        ensures refused { OnErr result ((k : ℕ) → number_at self.new k ≡ number_at self.old k) }
    {
        let Ok(number) = u32::try_from(number) else {
            return Err(AllocError);
        };
        self.make_room(position)?;
        self.puts[position] = Put {
            round: self.round,
            number,
        };
        Ok(())
    }
}
