//! The positions of repeated data, by the place at which each was stored.

ghost use Rattle.std.specs.Prelude.{◌≡◌, ◌<◌, ◌≤◌, ◌+◌, ◌++◌, ◌^◌, All, ℕ, List, length, IfOk, OnOk};
ghost use Rattle.omf_image.specs.Records.{hits};
ghost use Rattle.omf_image.specs.inside.Index.{Chain, Rises, IsLinked, IsIndex};

use std::alloc::{AllocError, Allocator};

/// For each stored place the positions whose byte was stored there, rising.
#[derive(Drop)]
pub struct Index<A: Allocator> {
    /// Where the positions of each place begin, and where those of the last end.
    starts: Vec<usize, A>,
    positions: Vec<u32, A>,
}

/// A number above each place.
pub fn end_of(places: &[u16]) -> usize
    ensures above { All (λ p. p < result) places.now }
    ensures small { result ≤ 65536 }
{
    let mut end = 0;
    for place in places {
        if end <= usize::from(*place) {
            end = usize::from(*place) + 1;
        }
    }
    end
}

/// The first position of each place, and after each position the next of the same place; the number of positions where
/// there is none.
fn linked<A: Allocator + Copy>(
    alloc: A,
    places: &[u16],
    end: usize,
) -> Result<(Vec<u32, A>, Vec<u32, A>), AllocError>
    requires short { length places.now < 2 ^ 32 }
    requires end { All (λ p. p < end) places.now }
    ensures { IfOk result (λ r. IsLinked places.now end r.0.items r.1.items) }
{
    let none = places.len() as u32;
    let mut heads = Vec::from_elem(alloc, none, end)?;
    let mut nexts = Vec::from_elem(alloc, none, places.len())?;
    let mut i = places.len();
    while i > 0 {
        i -= 1;
        let place = usize::from(places[i]);
        nexts[i] = heads[place];
        heads[place] = i as u32;
    }
    Ok((heads, nexts))
}

/// Pushes the positions from a first one on.
fn push_chain<A: Allocator>(
    nexts: &[u32],
    head: u32,
    positions: &mut Vec<u32, A>,
) -> Result<(), AllocError>
    requires { Rises nexts.now }
    ensures { (l : List ℕ) → Chain nexts.now head l → OnOk result (positions.new.items ≡ positions.old.items ++ l) }
{
    let mut at = head;
    while (at as usize) < nexts.len() {
        positions.push(at)?;
        at = nexts[at as usize];
    }
    Ok(())
}

impl<A: Allocator + Copy> Index<A> {
    /// An index of no data.
    pub fn empty(alloc: A) -> Index<A> {
        Index {
            starts: Vec::new(alloc),
            positions: Vec::new(alloc),
        }
    }

    /// The index of data whose bytes were stored at these places.
    pub fn new(alloc: A, places: &[u16]) -> Result<Index<A>, AllocError>
        requires { length places.now < 2 ^ 32 }
        ensures { IfOk result (λ x. IsIndex places.now x) }
    {
        let end = end_of(places);
        let (heads, nexts) = linked(alloc, places, end)?;
        let mut starts = Vec::new(alloc);
        let mut positions = Vec::new(alloc);
        for place in 0..end {
            starts.push(positions.len())?;
            push_chain(&nexts, heads[place], &mut positions)?;
        }
        starts.push(positions.len())?;
        Ok(Index { starts, positions })
    }

    /// The positions whose byte was stored at a place.
    pub fn hits(&self, offset: u16) -> &[u32]
        ensures { (places : List ℕ) → IsIndex places self.now → result.now ≡ hits offset places }
    {
        let place = usize::from(offset);
        if place + 1 < self.starts.len() {
            let (start, end) = (self.starts[place], self.starts[place + 1]);
            if start <= end && end <= self.positions.len() {
                return &self.positions[start..end];
            }
        }
        &[]
    }
}
