//! The places of bytes with gaps are found.
ghost use Rattle.std.specs.Prelude.{◌≡◌, ◌+◌, ◌<◌, ◌++◌, IfOk, IfSome, OnOk, drop, false, is_none, length, true};
ghost use Rattle.std.specs.Prelude.{take};
ghost use Rattle.byte_places.specs.Places as spec;
ghost use Rattle.byte_places.specs.inside.Anchors.{IsAnchor};
ghost use Rattle.byte_places.specs.inside.Found.{found_at, found_before};

use crate::building::word_of;
use crate::index::Index;
use std::alloc::{AllocError, Allocator};

/// Two bytes of a pattern that stand one behind the other: where the first one stands in it, and their word.
#[derive(Clone, Copy)]
struct Anchor {
    at: usize,
    word: usize,
}

/// Whether a pattern allows a byte where it asks for this one, or for any.
fn allows(cell: Option<u8>, byte: u8) -> bool
    ensures { result ≡ spec.allows cell byte }
{
    match cell {
        Some(wanted) => wanted == byte,
        None => true,
    }
}

/// The first byte that isn't what a pattern asks for, by its place in the pattern; of bytes that are too few the
/// pattern's end. None where they agree.
fn first_refused(pattern: &[Option<u8>], bytes: &[u8]) -> Option<usize>
    ensures { is_none result ≡ spec.agrees pattern.now bytes.now }
{
    if bytes.len() < pattern.len() {
        return Some(pattern.len());
    }
    for index in 0..pattern.len() {
        if !allows(pattern[index], bytes[index]) {
            return Some(index);
        }
    }
    None
}

/// Whether a pattern stands at a place of an image.
fn stands(pattern: &[Option<u8>], alignment: usize, image: &[u8], place: usize) -> bool
    requires aligned { 0 < alignment }
    requires inside { place < length image.now }
    ensures { result ≡ spec.stands pattern.now alignment image.now place }
{
    place % alignment == 0 && first_refused(pattern, &image[place..]).is_none()
}

/// The anchor of two bytes of a pattern, where both are asked for.
fn anchor_at(pattern: &[Option<u8>], at: usize) -> Option<Anchor>
    requires { at + 1 < length pattern.now }
    ensures { IfSome result (λ a. IsAnchor pattern.now a.at a.word) }
{
    match (pattern[at], pattern[at + 1]) {
        (Some(low), Some(high)) => Some(Anchor {
            at,
            word: word_of(low, high),
        }),
        _ => None,
    }
}

/// What is looked for: a pattern at multiples of an alignment, and how many of its places at most.
#[derive(Clone, Copy)]
struct Search<'p> {
    pattern: &'p [Option<u8>],
    alignment: usize,
    limit: usize,
}

/// Appends a place of an image where the pattern stands there.
fn push_where_it_stands<A: Allocator + Copy>(
    found: &mut Vec<usize, A>,
    search: Search<'_>,
    image: &[u8],
    place: usize,
) -> Result<(), AllocError>
    requires aligned { 0 < search.alignment }
    requires inside { place < length image.now }
    ensures { OnOk result (found.new.items ≡ found.old.items
        ++ found_at (spec.stands search.entry.pattern.now search.entry.alignment image.now) place) }
{
    if stands(search.pattern, search.alignment, image, place) {
        found.push(place)?;
    }
    Ok(())
}

/// Whether the byte of an image at a place that refuted another place of the pattern refutes this one too.
fn is_refuted(pattern: &[Option<u8>], image: &[u8], place: usize, refuting: usize) -> bool
    ensures { result ≡ true → spec.agrees pattern.now (drop place image.now) ≡ false }
{
    if refuting < place || refuting >= image.len() || refuting - place >= pattern.len() {
        return false;
    }
    !allows(pattern[refuting - place], image[refuting])
}

/// The places that were found, and the byte of the image that refuted one last, by its place: it mostly refutes the
/// next ones too, which so cost one look each.
#[derive(Drop)]
struct Walk<A: Allocator + Copy> {
    found: Vec<usize, A>,
    refuting: usize,
}

impl<A: Allocator + Copy> Walk<A> {
    /// Appends a place of an image that is a multiple of the alignment, where the pattern stands there.
    fn push_where_it_agrees(
        &mut self,
        search: Search<'_>,
        image: &[u8],
        place: usize,
    ) -> Result<(), AllocError>
        requires inside { place < length image.now }
        ensures { OnOk result (self.new.found.items ≡ self.old.found.items
            ++ found_at (λ p. spec.agrees search.entry.pattern.now (drop p image.now)) place) }
    {
        if is_refuted(search.pattern, image, place, self.refuting) {
            return Ok(());
        }
        match first_refused(search.pattern, &image[place..]) {
            Some(index) => self.refuting = place.saturating_add(index),
            None => self.found.push(place)?,
        }
        Ok(())
    }

    /// Appends the place so many bytes before another one of an image where the pattern stands there.
    fn push_before(
        &mut self,
        search: Search<'_>,
        image: &[u8],
        at: usize,
        offset: usize,
    ) -> Result<(), AllocError>
        requires aligned { 0 < search.alignment }
        requires inside { at < length image.now }
        ensures { OnOk result (self.new.found.items ≡ self.old.found.items
            ++ found_before (spec.stands search.entry.pattern.now search.entry.alignment image.now) at offset) }
    {
        if at >= offset && (at - offset) % search.alignment == 0 {
            self.push_where_it_agrees(search, image, at - offset)?;
        }
        Ok(())
    }
}

/// The first places of a pattern in an image, looked for at each place.
fn places_anywhere<A: Allocator + Copy>(
    alloc: A,
    image: &[u8],
    search: Search<'_>,
) -> Result<Vec<usize, A>, AllocError>
    requires { 0 < search.alignment }
    ensures { IfOk result (λ found. found.items
        ≡ take search.entry.limit (spec.places search.entry.pattern.now search.entry.alignment image.now)) }
{
    let mut found = Vec::new(alloc);
    for place in 0..image.len() {
        if found.len() >= search.limit {
            break;
        }
        push_where_it_stands(&mut found, search, image, place)?;
    }
    Ok(found)
}

impl<'a, A: Allocator + Copy> Index<'a, A> {
    /// The anchor of a pattern whose word stands least often in the image. None where no two of its bytes stand one
    /// behind the other.
    fn rarest(&self, pattern: &[Option<u8>]) -> Option<Anchor>
        ensures { IfSome result (λ a. IsAnchor pattern.now a.at a.word) }
    {
        let mut rarest = None;
        let mut fewest = usize::MAX;
        for at in 0..pattern.len().saturating_sub(1) {
            if let Some(anchor) = anchor_at(pattern, at) {
                let count = self.counts[anchor.word];
                if count < fewest {
                    fewest = count;
                    rarest = Some(anchor);
                }
            }
        }
        rarest
    }

    /// The first places of a pattern in the image, looked for where the word of its anchor stands.
    fn places_of_anchor<B: Allocator + Copy>(
        &self,
        alloc: B,
        search: Search<'_>,
        anchor: Anchor,
    ) -> Result<Vec<usize, B>, AllocError>
        requires aligned { 0 < search.alignment }
        requires anchored { IsAnchor search.pattern.now anchor.at anchor.word }
        ensures { IfOk result (λ found. found.items
            ≡ take search.entry.limit (spec.places search.entry.pattern.now search.entry.alignment self.now)) }
    {
        let mut walk = Walk {
            found: Vec::new(alloc),
            refuting: self.image.len(),
        };
        let mut at = self.first[anchor.word];
        while at < self.next.len() && walk.found.len() < search.limit {
            walk.push_before(search, self.image, at, anchor.at)?;
            at = self.next[at];
        }
        let Walk { found, refuting: _ } = walk;
        Ok(found)
    }

    /// The first places at which a pattern stands in the image, at most `limit` of them, in rising order: multiples of
    /// the alignment from which on each byte is the one that the pattern asks for, or any where it asks for none. The
    /// pattern ends in the image.
    ///
    /// # Errors
    /// There was no memory.
    pub fn places<B: Allocator + Copy>(
        &self,
        alloc: B,
        pattern: &[Option<u8>],
        alignment: usize,
        limit: usize,
    ) -> Result<Vec<usize, B>, AllocError>
        requires { 0 < alignment }
        ensures { IfOk result (λ found. found.items ≡ take limit (spec.places pattern.now alignment self.now)) }
    {
        let search = Search {
            pattern,
            alignment,
            limit,
        };
        match self.rarest(pattern) {
            Some(anchor) => self.places_of_anchor(alloc, search, anchor),
            None => places_anywhere(alloc, self.image, search),
        }
    }
}
