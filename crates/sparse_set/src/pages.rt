//! Where each index has its place: in pages, as in EnTT's paged sparse array.

ghost use Rattle.std.specs.Prelude.{◌≡◌, ℕ, ◌+◌, ◌<◌, ◌≤◌, ◌/◌, ◌^◌, [], length, Some, IsOk, OnOk, slice_get, slice_set};
ghost use Rattle.sparse_set.specs.Pages.{place_at, page_of, HasPlace, IsMade, AreMadeBelow, Puts, Keeps};

use entity_id::OutOfMemory;
use std::alloc::Global;
use std::marker::Model;

// How many places a page has. (EnTT: `ENTT_SPARSE_PAGE`.)
pub const PAGE: u32 = 4_096;

// The places of so many indices in a row; of none, and without memory, before it is made.
#[derive(Drop)]
struct Page {
    places: Vec<u32>,
}

impl Model for Page {
    ghost use Rattle.std.specs.Prelude.{ℕ, List};

    ghost Value = { List ℕ };

    ghost view = { λ p. p.places.items };
}

impl Page {
    fn new(alloc: Global) -> Page
        ensures { result ≡ [] }
    {
        Page {
            places: Vec::new(alloc),
        }
    }

    fn is_made(&self) -> bool {
        !self.places.is_empty()
    }

    fn get(&self, offset: u32) -> Option<u32>
        ensures { result ≡ slice_get self.now offset }
    {
        self.places.get(offset as usize).copied()
    }

    fn set(&mut self, offset: u32, place: u32)
        requires { offset < length self.old }
        ensures { self.new ≡ slice_set self.old offset place }
    {
        self.places[offset as usize] = place;
    }

    // Makes it of so many places, unless they are there. Any number stands where none was set.
    fn make(&mut self, len: usize) -> Result<(), OutOfMemory>
        ensures kept { (offset place : ℕ) → slice_get self.old offset ≡ Some place
            → slice_get self.new offset ≡ Some place }
        ensures longer { length self.old ≤ length self.new }
        ensures ok { OnOk result (len ≤ length self.new) }
        ensures ready { len ≤ length self.old → IsOk result }
    {
        if self.places.len() < len {
            self.places.resize(len, 0)?;
        }
        Ok(())
    }
}

// The pages, by number.
#[derive(Drop)]
pub struct Pages {
    list: Vec<Page>,
}

impl Model for Pages {
    ghost use Rattle.std.specs.Prelude.{ℕ, ◌≤◌, ◌^◌, List, length};

    ghost Value = { List (List ℕ) };

    ghost view = { λ p. p.list.items };

    ghost invariant = { λ p. length p.list.items ≤ 2 ^ 20 };
}

impl Pages {
    pub fn new(alloc: Global) -> Pages
        ensures { result ≡ [] }
    {
        Pages {
            list: Vec::new(alloc),
        }
    }

    // How many pages are made.
    pub fn count(&self) -> u32 {
        self.list.iter().filter(|page| page.is_made()).count() as u32
    }

    // What stands under an index: any number, where none was set.
    pub fn get(&self, index: u32) -> Option<u32>
        ensures { result ≡ place_at self.now index }
    {
        self.list.get((index / PAGE) as usize)?.get(index % PAGE)
    }

    pub fn set(&mut self, index: u32, place: u32)
        requires { HasPlace self.old index }
        ensures { Puts self.old self.new index place }
    {
        self.list[(index / PAGE) as usize].set(index % PAGE, place);
    }

    // Makes the page of this number, unless it is there.
    pub fn make(&mut self, number: u32) -> Result<(), OutOfMemory>
        requires { number < 2 ^ 20 }
        ensures kept { Keeps self.old self.new }
        ensures ok { OnOk result (IsMade self.new number) }
        ensures ready { IsMade self.old number → IsOk result }
    {
        self.grow(number as usize + 1)?;
        self.list[number as usize].make(PAGE as usize)
    }

    // Makes each page of an index below the bound, where those below another one are made.
    pub fn make_below(&mut self, made: u32, bound: u32) -> Result<(), OutOfMemory>
        requires { AreMadeBelow self.old made }
        ensures kept { Keeps self.old self.new }
        ensures ok { OnOk result (AreMadeBelow self.new bound) }
        ensures ready { bound ≤ made → IsOk result }
    {
        for number in made.div_ceil(PAGE)..bound.div_ceil(PAGE) {
            self.make(number)?;
        }
        Ok(())
    }

    // As many pages as that, the new ones not made.
    fn grow(&mut self, len: usize) -> Result<(), OutOfMemory>
        requires { len ≤ 2 ^ 20 }
        ensures pages { (number : ℕ) → page_of self.new number ≡ page_of self.old number }
        ensures ok { OnOk result (len ≤ length self.new) }
        ensures ready { len ≤ length self.old → IsOk result }
    {
        let alloc = *self.list.allocator();
        while self.list.len() < len {
            self.list.push(Page::new(alloc))?;
        }
        Ok(())
    }
}
