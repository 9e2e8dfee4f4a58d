//! The floors of the members of a group.
ghost use Rattle.std.specs.Prelude.{◌≡◌, ◌<◌, ◌≤◌, [], ◌∷◌, ◌++◌, length, IsOk, IfOk};
ghost use Rattle.board_text.specs.Floors.{number_for};
ghost use Rattle.board_text.specs.Limits.{floor_limit};

use arrayvec::ArrayVec;
use std::alloc::{AllocError as NoMemory, Global};
use std::marker::Model;

/// How many floors a list has at most, which is the limit of members in a group: of this project.
pub const FLOOR_LIMIT: usize = 16;

/// A list of floors while it grows: those of members 1, 2 and so on, at most 16, which lie in the value itself. A floor is
/// a number of entries of a history: a call with floor f stands behind at least f of them. Of this project.
#[derive(Debug, Drop)]
pub struct FloorList {
    items: ArrayVec<u64, FLOOR_LIMIT>,
}

impl Model for FloorList {
    ghost use Rattle.std.specs.Prelude.{ℕ, ◌≤◌, List, length};
    ghost use Rattle.board_text.specs.Limits.{floor_limit};

    ghost Value = { List ℕ };

    ghost view = { λ f. f.items.items };

    ghost invariant = { λ f. length f.items.items ≤ floor_limit };
}

impl FloorList {
    /// No floors.
    pub fn new() -> FloorList
        ensures { result ≡ [] }
    {
        FloorList {
            items: ArrayVec::new(),
        }
    }

    /// Adds the floor of the next member. Fewer than 16 are held.
    pub fn push(&mut self, floor: u64)
        requires { length self.old < floor_limit }
        ensures { self.new ≡ self.old ++ floor ∷ [] }
    {
        self.items.push(floor);
    }

    /// How many floors are held.
    pub fn length(&self) -> u32
        ensures value { result ≡ length self.now }
        ensures fits { length self.now ≤ floor_limit }
    {
        self.items.as_slice().len() as u32
    }

    /// The same floors once more.
    pub fn copy(&self) -> FloorList
        ensures { result ≡ self.now }
    {
        let mut items = ArrayVec::new();
        items.try_extend_from_slice(self.items.as_slice()).unwrap();
        FloorList { items }
    }
}

impl PartialEq for FloorList {
    ghost use Rattle.std.specs.Prelude.{bytes_eq};
    ghost use Rattle.std.specs.Cmp.{partial_equiv_from_equiv};
    ghost use Rattle.std.specs.Cmp.Lexicographic.{nat_list_eq_equiv};

    ghost eq = { bytes_eq };

    ghost laws = { partial_equiv_from_equiv nat_list_eq_equiv };

    fn eq(&self, other: &FloorList) -> bool {
        self.items.as_slice() == other.items.as_slice()
    }
}

impl Eq for FloorList {
    ghost use Rattle.std.specs.Cmp.Lexicographic.{nat_list_eq_equiv};

    ghost laws = { nat_list_eq_equiv };
}

static NO_FLOORS: [u64; 0] = [];

/// The floors of members 1, 2 and so on, at most 16, of a call. They lie in memory that is written once and stays, since
/// what holds them is a history, which stays too; so a call that has none isn't longer for them, and one that has some is
/// copied without memory. Of this project.
#[derive(Debug, Drop)]
pub struct Floors {
    items: &'static [u64],
}

impl Model for Floors {
    ghost use Rattle.std.specs.Prelude.{ℕ, ◌≤◌, List, length};
    ghost use Rattle.board_text.specs.Limits.{floor_limit};

    ghost Value = { List ℕ };

    ghost view = { λ f. f.items.now };

    ghost invariant = { λ f. length f.items.now ≤ floor_limit };
}

impl Floors {
    /// No floors.
    pub fn new() -> Floors
        ensures { result ≡ [] }
    {
        Floors { items: &NO_FLOORS }
    }

    /// The floors of a list. Their memory stays, even when the floors are gone; an empty list takes none.
    pub fn of(alloc: Global, list: &FloorList) -> Result<Floors, NoMemory>
        ensures value { IfOk result (λ floors. floors ≡ list.now) }
        ensures memory { list.now ≡ [] → IsOk result }
    {
        if list.items.as_slice().is_empty() {
            return Ok(Floors::new());
        }
        let items = Vec::from_slice(alloc, list.items.as_slice())?.leak();
        Ok(Floors { items })
    }

    /// The floor of member `m`, counted from 1, or 0 where there is none.
    pub fn at(&self, m: u32) -> u64
        ensures { result ≡ number_for m self.now }
    {
        if m == 0 || m as usize > self.items.len() {
            0
        } else {
            self.items[m as usize - 1]
        }
    }

    /// How many floors are held.
    pub fn length(&self) -> u32
        ensures value { result ≡ length self.now }
        ensures fits { length self.now ≤ floor_limit }
    {
        self.items.len() as u32
    }

    /// The same floors once more, without memory.
    pub fn copy(&self) -> Floors
        ensures { result ≡ self.now }
    {
        Floors { items: self.items }
    }
}

impl PartialEq for Floors {
    ghost use Rattle.std.specs.Prelude.{bytes_eq};
    ghost use Rattle.std.specs.Cmp.{partial_equiv_from_equiv};
    ghost use Rattle.std.specs.Cmp.Lexicographic.{nat_list_eq_equiv};

    ghost eq = { bytes_eq };

    ghost laws = { partial_equiv_from_equiv nat_list_eq_equiv };

    fn eq(&self, other: &Floors) -> bool {
        self.items == other.items
    }
}

impl Eq for Floors {
    ghost use Rattle.std.specs.Cmp.Lexicographic.{nat_list_eq_equiv};

    ghost laws = { nat_list_eq_equiv };
}
