//! The failures of each index, in pieces: copies share all of them but those that change.

ghost use Rattle.std.specs.Prelude.{
  ◌≡◌,
  ◌↔◌,
  ◌+◌,
  ◌-◌,
  ◌<◌,
  ◌≤◌,
  All,
  ◌++◌,
  ◌∷◌,
  [],
  IfOk,
  IfSome,
  IsNone,
  IsTrue,
  List,
  None,
  OnErr,
  OnOk,
  drop,
  get_or,
  length,
  set,
  take,
};
ghost use Rattle.std.specs.List.{flat_map, insert};
ghost use Rattle.jc_types.specs.Pieces.{items_in, items_left, place_in};
ghost use Rattle.jc_types.specs.Weights.{IsGreatest, IsWithin, weight};
ghost use Rattle.jc_types.specs.declared.statuses.IndexCount.{IndexCount};

use crate::copies::{Copied, Same, Want};
use crate::lists::{ListOf, copied_slice};
use crate::statuses::IndexCount;
use std::alloc::Global;
use std::marker::Model;

// The most items that a piece has.
const MOST: usize = 64;

// How many of one item too many stay in the first half.
const HALF: usize = 32;

// Where an item stands: the number of its piece, and its place in the piece, both counted from 0.
#[derive(Clone, Copy)]
struct Spot {
    piece: usize,
    place: usize,
}

/// A piece of the failures of each index. A contract sees the list of its counts.
#[derive(Drop)]
pub struct Piece {
    counts: ListOf<IndexCount>,
    // The greatest weight of the counts; 0 of none.
    most: u64,
}

impl Model for Piece {
    ghost use Rattle.std.specs.Prelude.{List};
    ghost use Rattle.jc_types.specs.declared.statuses.IndexCount.{IndexCount};
    ghost use Rattle.jc_types.specs.Weights.{IsGreatest};

    ghost Value = { List IndexCount };

    ghost view = { λ p. p.counts };

    ghost invariant = { λ p. IsGreatest p.most p.counts };
}

/// The failures of each index that has some, in ascending index. They stand in pieces; a contract sees the list of
/// all. Its copies share its memory; a change while a copy is alive copies one piece, and the list of the pieces.
#[derive(Drop)]
pub struct IndexCounts {
    alloc: Global,
    pieces: ListOf<Piece>,
}

impl Model for IndexCounts {
    ghost use Rattle.std.specs.Prelude.{List};
    ghost use Rattle.std.specs.List.{flat_map};
    ghost use Rattle.jc_types.specs.declared.statuses.IndexCount.{IndexCount};

    ghost Value = { List IndexCount };

    ghost view = { λ p. flat_map (λ piece. piece) p.pieces };
}

// What a count weighs: its failures, and the most where the failure policy failed its index.
fn weight(count: IndexCount) -> u64
    ensures { result ≡ weight count }
{
    if count.fail { u64::MAX } else { count.failures }
}

// The greatest weight of these counts; 0 of none.
fn greatest(counts: &[IndexCount]) -> u64
    ensures { IsGreatest result counts.now }
{
    let mut most: u64 = 0;
    for count in counts {
        most = most.max(weight(*count));
    }
    most
}

impl Piece {
    // The piece of these counts, which it takes over.
    fn of_vec(alloc: Global, counts: Vec<IndexCount>) -> Result<Self, Want>
        ensures { IfOk result (λ p. p ≡ counts.items) }
    {
        let most = greatest(counts.as_slice());
        let counts = ListOf::of_vec(alloc, counts)?;
        Ok(Piece { counts, most })
    }

    /// The number of counts.
    pub fn len(&self) -> usize
        ensures { result ≡ length self.now }
    {
        self.counts.len()
    }

    /// The counts, in ascending index.
    pub fn as_slice(&self) -> &[IndexCount]
        ensures { result.now ≡ self.now }
    {
        self.counts.as_slice()
    }

    /// Whether no count has more failures than this limit, and the failure policy failed the index of none. It is
    /// known without a look at the counts.
    pub fn is_within(&self, limit: u32) -> bool
        ensures { IsTrue result ↔ All (λ count. IsWithin limit count) self.now }
    {
        self.most <= u64::from(limit)
    }
}

impl Copied for Piece {
    fn copy(&self) -> Result<Self, Want> {
        Ok(Piece {
            counts: self.counts.copy()?,
            most: self.most,
        })
    }
}

// The first spot at or behind the given one that has an item; the place of the given one may lie behind
// its piece.
#[tactic(auto, using(crate::proofs::PieceFacts::next_piece, crate::proofs::PieceFacts::all_passed))]
fn spot_from(pieces: &[Piece], from: Spot) -> Option<Spot>
    requires { from.piece ≤ length pieces.now }
    ensures piece { IfSome result (λ spot. spot.piece < length pieces.now) }
    ensures inside { IfSome result (λ spot. spot.place < length (get_or pieces.now spot.piece [])) }
    ensures same { IfSome result (λ spot. place_in pieces.now spot.piece spot.place
        ≡ place_in pieces.now from.piece from.place) }
    ensures past { IsNone result → length (items_in pieces.now)
        ≤ place_in pieces.now from.piece from.place }
{
    let mut left = from.place;
    for number in from.piece..pieces.len() {
        let count = pieces[number].len();
        if left < count {
            return Some(Spot {
                piece: number,
                place: left,
            });
        }
        left -= count;
    }
    None
}

// The items with this one in place of another.
fn with_other<T: Copied>(alloc: Global, items: &[T], place: usize, item: T) -> Result<Vec<T>, Want>
    requires { place < length items.now }
    ensures { IfOk result (λ v. v.items ≡ set items.now place item) }
{
    let mut copied = copied_slice(alloc, items, 0)?;
    copied[place] = item;
    Ok(copied)
}

// The pieces with these items in place of a piece.
fn with_one(
    alloc: Global,
    pieces: &[Piece],
    number: usize,
    items: Vec<IndexCount>,
) -> Result<ListOf<Piece>, Want>
    requires { number < length pieces.now }
    ensures { IfOk result (λ r. r ≡ set pieces.now number items.items) }
{
    let piece = Piece::of_vec(alloc, items)?;
    ListOf::of_vec(alloc, with_other(alloc, pieces, number, piece)?)
}

// The pieces with these two in place of one.
fn with_two(
    alloc: Global,
    pieces: &[Piece],
    number: usize,
    first: Piece,
    second: Piece,
) -> Result<ListOf<Piece>, Want>
    requires { number < length pieces.now }
    ensures { IfOk result (λ r. r ≡ insert (set pieces.now number first) (number + 1) second) }
{
    let mut list = copied_slice(alloc, pieces, 1)?;
    list[number] = first;
    list.insert(number + 1, second)?;
    ListOf::of_vec(alloc, list)
}

// The pieces with these items, of which there are too many for one, in two pieces in place of one.
fn with_halves(
    alloc: Global,
    pieces: &[Piece],
    number: usize,
    items: Vec<IndexCount>,
) -> Result<ListOf<Piece>, Want>
    requires number { number < length pieces.now }
    requires many { HALF ≤ length items.items }
    ensures { IfOk result (λ r. r
        ≡ insert (set pieces.now number (take HALF items.items)) (number + 1) (drop HALF items.items)) }
{
    let mut items = items;
    let second = Piece::of_vec(alloc, copied_slice(alloc, &items.as_slice()[HALF..], 0)?)?;
    items.truncate(HALF);
    let first = Piece::of_vec(alloc, items)?;
    with_two(alloc, pieces, number, first, second)
}

// The pieces with an item in place of the one at the place.
fn with_item(
    alloc: Global,
    pieces: &[Piece],
    place: usize,
    item: IndexCount,
) -> Result<ListOf<Piece>, Want>
    requires { place < length (items_in pieces.now) }
    ensures { IfOk result (λ r. items_in r ≡ set (items_in pieces.now) place item) }
{
    match spot_from(pieces, Spot { piece: 0, place }) {
        None => unreachable!(),
        Some(spot) => {
            let items = with_other(alloc, pieces[spot.piece].as_slice(), spot.place, item)?;
            with_one(alloc, pieces, spot.piece, items)
        }
    }
}

// The pieces with an item more, before the one at the spot.
fn with_more(
    alloc: Global,
    pieces: &[Piece],
    spot: Spot,
    item: IndexCount,
) -> Result<ListOf<Piece>, Want>
    requires piece { spot.piece < length pieces.now }
    requires place { spot.place ≤ length (get_or pieces.now spot.piece []) }
    ensures { IfOk result (λ r. items_in r
        ≡ insert (items_in pieces.now) (place_in pieces.now spot.piece spot.place) item) }
{
    let mut items = copied_slice(alloc, pieces[spot.piece].as_slice(), 1)?;
    items.insert(spot.place, item)?;
    if items.len() <= MOST {
        with_one(alloc, pieces, spot.piece, items)
    } else {
        with_halves(alloc, pieces, spot.piece, items)
    }
}

// The end of the last piece, where it has room for an item more.
fn room_of(pieces: &[Piece]) -> Option<Spot>
    ensures piece { IfSome result (λ spot. spot.piece < length pieces.now) }
    ensures place { IfSome result (λ spot. spot.place ≤ length (get_or pieces.now spot.piece [])) }
    ensures last { IfSome result (λ spot. place_in pieces.now spot.piece spot.place
        ≡ length (items_in pieces.now)) }
    ensures full { result ≡ None → 0 < length pieces.now
        → MOST ≤ length (get_or pieces.now (length pieces.now - 1) []) }
{
    if pieces.is_empty() {
        return None;
    }
    let piece = pieces.len() - 1;
    let place = pieces[piece].len();
    if place < MOST {
        Some(Spot { piece, place })
    } else {
        None
    }
}

// The spot behind these items, where they stand in the pieces from the given spot on.
fn spot_behind(pieces: &[Piece], from: Spot, items: &[IndexCount]) -> Option<Spot>
    requires { from.piece ≤ length pieces.now }
    ensures piece { IfSome result (λ spot. spot.piece ≤ length pieces.now) }
    ensures same { IfSome result (λ spot. items_left pieces.now from.piece from.place
        ≡ items.now ++ items_left pieces.now spot.piece spot.place) }
    ensures other { IsNone result → (more : List IndexCount)
        → items_left pieces.now from.piece from.place ≡ items.now ++ more → ⊥ }
{
    let mut spot = from;
    for item in items {
        let Some(found) = spot_from(pieces, spot) else {
            return None;
        };
        if !pieces[found.piece].as_slice()[found.place].is_same(item) {
            return None;
        }
        spot = Spot {
            piece: found.piece,
            place: found.place + 1,
        };
    }
    Some(spot)
}

// Whether the pieces have the same items, however they are cut.
fn has_same_items(left: &[Piece], right: &[Piece]) -> bool
    ensures { IsTrue result ↔ (items_in left.now ≡ items_in right.now) }
{
    let mut spot = Spot { piece: 0, place: 0 };
    for piece in left {
        match spot_behind(right, spot, piece.as_slice()) {
            None => return false,
            Some(behind) => spot = behind,
        }
    }
    spot_from(right, spot).is_none()
}

impl IndexCounts {
    /// The empty list. It takes no memory.
    pub fn new(alloc: Global) -> Self
        ensures { result ≡ [] }
    {
        IndexCounts {
            alloc,
            pieces: ListOf::new(alloc),
        }
    }

    /// The pieces: their items, piece by piece, are those of the list.
    pub fn pieces(&self) -> &[Piece]
        ensures { flat_map (λ piece. piece) result.now ≡ self.now }
    {
        self.pieces.as_slice()
    }
}

impl IndexCounts {
    /// Adds an item at the end.
    ///
    /// # Errors
    /// `Want` where there is no memory; the list is then as before.
    #[tactic(auto, using(crate::proofs::PieceFacts::insert_end, crate::proofs::PieceFacts::piece_more))]
    pub fn push(&mut self, item: IndexCount) -> Result<(), Want>
        ensures added { OnOk result (self.new ≡ self.old ++ item ∷ []) }
        ensures kept { OnErr result (self.new ≡ self.old) }
    {
        if let Some(spot) = room_of(self.pieces.as_slice()) {
            self.pieces = with_more(self.alloc, self.pieces.as_slice(), spot, item)?;
            return Ok(());
        }
        let mut counts = Vec::with_capacity(self.alloc, 1)?;
        counts.push(item)?;
        self.pieces.push(Piece::of_vec(self.alloc, counts)?)
    }

    /// Writes an item in place of the one at the place, counted from 0.
    ///
    /// # Errors
    /// `Want` where there is no memory; the list is then as before.
    pub fn set(&mut self, place: usize, item: IndexCount) -> Result<(), Want>
        requires { place < length self.old }
        ensures written { OnOk result (self.new ≡ set self.old place item) }
        ensures kept { OnErr result (self.new ≡ self.old) }
    {
        self.pieces = with_item(self.alloc, self.pieces.as_slice(), place, item)?;
        Ok(())
    }

    /// Adds an item before the one at the place, counted from 0; at the number of items, at the end.
    ///
    /// # Errors
    /// `Want` where there is no memory; the list is then as before.
    #[tactic(auto, using(crate::proofs::PieceFacts::insert_end))]
    pub fn insert(&mut self, place: usize, item: IndexCount) -> Result<(), Want>
        requires { place ≤ length self.old }
        ensures added { OnOk result (self.new ≡ insert self.old place item) }
        ensures kept { OnErr result (self.new ≡ self.old) }
    {
        match spot_from(self.pieces.as_slice(), Spot { piece: 0, place }) {
            None => self.push(item),
            Some(spot) => {
                self.pieces = with_more(self.alloc, self.pieces.as_slice(), spot, item)?;
                Ok(())
            }
        }
    }
}

impl Copied for IndexCounts {
    fn copy(&self) -> Result<Self, Want> {
        Ok(IndexCounts {
            alloc: self.alloc,
            pieces: self.pieces.copy()?,
        })
    }
}

impl Same for IndexCounts {
    fn is_same(&self, other: &Self) -> bool {
        has_same_items(self.pieces.as_slice(), other.pieces.as_slice())
    }
}
