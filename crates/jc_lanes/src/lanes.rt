//! How far each lane of a script is.

ghost use Rattle.std.specs.Prelude.{◌≡◌, ◌<◌, ◌^◌, ◌↔◌, [], IfOk, IsTrue, List, length};
ghost use Rattle.jc_types.specs.declared.actions.Command.{Command};
ghost use Rattle.jc_types.specs.declared.runs.Past.{Past};
ghost use Rattle.jc_history.specs.Legal.{ComesNext, next_command};
ghost use Rattle.jc_lanes.specs.LongerScripts.{HasMore};
ghost use Rattle.jc_lanes.specs.Places.{AreNone, AreUsedUp, HasPlaces, MovesOn, next_from};

use jc_types::{Command, Event, Want};
use std::alloc::Global;
use std::marker::Model;

// How many lanes there can be.
const MOST_LANES: usize = 256;

/// How far each lane of a script is: the place of its next command, where there is one.
#[derive(Drop)]
pub struct Lanes {
    next: Vec<Option<u32>>,
}

impl Model for Lanes {
    ghost use Rattle.std.specs.Prelude.{◌≡◌, List, Option, length, ℕ};
    ghost use Rattle.jc_lanes.specs.Places.{most_lanes};

    ghost Value = { List (Option ℕ) };

    ghost view = { λ l. l.next.items };

    ghost invariant = { λ l. length l.next.items ≡ most_lanes };
}

// The place of the lane's first command from this place on.
fn next_from(commands: &[Command], lane: u8, from: usize) -> Option<u32>
    requires { length commands.now < 2 ^ 32 }
    ensures { result ≡ next_from lane from commands.now }
{
    for place in from..commands.len() {
        if commands[place].lane == lane {
            return Some(place as u32);
        }
    }
    None
}

// Whether each place is none.
fn are_none(next: &[Option<u32>]) -> bool
    ensures { IsTrue result ↔ AreNone next.now }
{
    for i in 0..next.len() {
        if next[i].is_some() {
            return false;
        }
    }
    true
}

impl Lanes {
    /// The lanes of the commands, before any was played.
    ///
    /// # Errors
    /// `Want` where there is no memory for them.
    pub fn new(alloc: Global, commands: &[Command]) -> Result<Lanes, Want>
        requires { length commands.now < 2 ^ 32 }
        ensures { IfOk result (λ lanes. HasPlaces commands.now [] lanes) }
    {
        let mut lanes = Lanes::of_none(alloc)?;
        for place in 0..commands.len() {
            lanes.append(commands[place].lane, place as u32);
        }
        Ok(lanes)
    }

    // The lanes where there is no command.
    fn of_none(alloc: Global) -> Result<Lanes, Want>
        ensures { IfOk result (λ lanes. HasPlaces [] [] lanes) }
    {
        let mut next = Vec::new(alloc);
        for _ in 0..MOST_LANES {
            next.push(None)?;
        }
        Ok(Lanes { next })
    }

    /// Whether the event, if it is a command, is its lane's next one.
    pub fn is_next(&self, event: &Event) -> bool
        ensures { (commands : List Command) (before : List Past)
            → HasPlaces commands before self.now
            → IsTrue result ↔ ComesNext commands before event.now }
    {
        match event {
            Event::System(_) => true,
            Event::Command { lane, number } => self.next[*lane as usize] == Some(*number),
        }
    }

    /// Goes on to the lane's next command, where the event is one. It takes no memory.
    pub fn advance(&mut self, commands: &[Command], event: &Event)
        requires { length commands.now < 2 ^ 32 }
        ensures { MovesOn commands.now event.now self.old self.new }
    {
        let Event::Command { lane, number } = event else {
            return;
        };
        let from = *number as usize + 1;
        self.next[*lane as usize] = next_from(commands, *lane, from);
    }

    /// Takes up a command at the end of the others: it is its lane's next one, where the lane is used up. It takes no
    /// memory.
    pub fn append(&mut self, lane: u8, place: u32)
        ensures { HasMore lane place self.old self.new }
    {
        let next = self.next[lane as usize];
        if next.is_none() {
            self.next[lane as usize] = Some(place);
        }
    }

    /// The place of the lane's next command; none where the lane is used up.
    pub fn next_of(&self, lane: u8) -> Option<u32>
        ensures { (commands : List Command) (before : List Past)
            → HasPlaces commands before self.now → result ≡ next_command commands lane before }
    {
        self.next[lane as usize]
    }

    /// Whether no lane has a command left.
    pub fn are_used(&self) -> bool
        ensures { (commands : List Command) (before : List Past)
            → HasPlaces commands before self.now → IsTrue result ↔ AreUsedUp commands before }
    {
        are_none(self.next.as_slice())
    }
}
