// From text to a value, in one pass over the nodes of its tape.
ghost use Rattle.std.specs.Prelude.{◌≡◌, ◌<◌, ◌≤◌, length, Some, None, Err, IfOk, OnOk};
ghost use Rattle.json.specs.Json.{value, items, members};
ghost use Rattle.json.specs.Lex.{tokens};
ghost use Rattle.serde_json.specs.Data.{no_members, depth as nesting};
ghost use Rattle.serde_json.specs.Read.{of_json, of_items, of_members, converted, max_depth, read as read_text};
ghost use Rattle.jc_json.specs.View.{view, items_view, members_view};

use crate::line::JsonFault;
use crate::nodes::Nodes;
use crate::numerals::number;
use crate::value::{Value, truth};
use bumpalo::Bump;
use bumpalo::collections::into_bump_slice;
use json::{Error, Node, Scratch, Tape};

// So many arrays and objects may stand in one another.
const MAX_DEPTH: usize = 127;

// The tape of a text.
fn tape_of<'a>(
    bump: &'a Bump,
    text: &'a str,
    scratch: &'a mut Scratch,
) -> Result<Tape<'a, &'a Bump>, JsonFault>
    ensures ok { IfOk result (λ tape. tape ≡ tokens text.now) }
    ensures err { result ≡ Err JsonFault.NotJson → read_text text.now ≡ None }
{
    match Tape::parse(text, scratch, Vec::new(bump)) {
        Ok(tape) => Ok(tape),
        Err(Error::Invalid) => Err(JsonFault::NotJson),
        Err(_) => Err(JsonFault::Want),
    }
}

// The value that a text spells. What it takes is in the arena.
#[tactic(auto, using(crate::proofs::Lines::whole_nests))]
pub(crate) fn read_all<'a>(
    bump: &'a Bump,
    text: &'a str,
    scratch: &'a mut Scratch,
) -> Result<Value<'a>, JsonFault>
    ensures ok { IfOk result (λ v. read_text text.now ≡ Some (view v)) }
    ensures nests { IfOk result (λ v. nesting (view v) ≤ max_depth) }
    ensures err { result ≡ Err JsonFault.NotJson → read_text text.now ≡ None }
{
    let tape = tape_of(bump, text, scratch)?;
    let mut reader = Nodes::of(&tape);
    let value = read(bump, &mut reader, MAX_DEPTH)?;
    if reader.next().is_some() {
        return Err(JsonFault::NotJson);
    }
    Ok(value)
}

// The next value. Arrays and objects may nest `depth` deep.
#[cycle(read)]
#[inline(always)]
fn read<'a>(
    bump: &'a Bump,
    reader: &mut Nodes<'_, 'a>,
    depth: usize,
) -> Result<Value<'a>, JsonFault>
    ensures ok { IfOk result
        (λ v. converted of_json (value depth reader.old) ≡ Some (view v, reader.new)) }
    ensures shorter { OnOk result (length reader.new < length reader.old) }
    ensures err { result ≡ Err JsonFault.NotJson
        → converted of_json (value depth reader.old) ≡ None }
{
    let Some(node) = reader.next() else {
        return Err(JsonFault::NotJson);
    };
    match node {
        Node::String(text) => Ok(Value::String(*text)),
        Node::Number(text) => match number(*text) {
            Some(number) => Ok(Value::Number(number)),
            None => Err(JsonFault::NotJson),
        },
        Node::Bool(b) => Ok(truth(*b)),
        Node::Null => Ok(Value::Null),
        Node::EndObject | Node::EndArray | Node::Key(_) => Err(JsonFault::NotJson),
        Node::Array(_) => {
            if depth == 0 {
                return Err(JsonFault::NotJson);
            }
            Ok(Value::Array(read_items(bump, reader, depth - 1)?))
        }
        Node::Object(_) => {
            if depth == 0 {
                return Err(JsonFault::NotJson);
            }
            Ok(Value::Object(read_members(bump, reader, depth - 1)?))
        }
    }
}

// The items up to the bracket that closes them.
#[cycle(read)]
#[inline(never)]
fn read_items<'a>(
    bump: &'a Bump,
    reader: &mut Nodes<'_, 'a>,
    depth: usize,
) -> Result<&'a [Value<'a>], JsonFault>
    ensures ok { IfOk result
        (λ v. converted of_items (items (value depth) (length reader.old) reader.old)
        ≡ Some (items_view v.now, reader.new)) }
    ensures shorter { OnOk result (length reader.new < length reader.old) }
    ensures err { result ≡ Err JsonFault.NotJson
        → converted of_items (items (value depth) (length reader.old) reader.old) ≡ None }
{
    let mut found = Vec::new(bump);
    'items: while !reader.take_end_array() {
        let item = read(bump, reader, depth)?;
        found.push(item)?;
    }
    Ok(into_bump_slice(found))
}

// The members up to the brace that closes them.
#[cycle(read)]
#[inline(never)]
fn read_members<'a>(
    bump: &'a Bump,
    reader: &mut Nodes<'_, 'a>,
    depth: usize,
) -> Result<&'a [(&'a str, Value<'a>)], JsonFault>
    ensures ok { IfOk result
        (λ v. converted (λ ms. of_members ms no_members)
        (members (value depth) (length reader.old) reader.old)
        ≡ Some (members_view v.now no_members, reader.new)) }
    ensures shorter { OnOk result (length reader.new < length reader.old) }
    ensures err { result ≡ Err JsonFault.NotJson
        → converted (λ ms. of_members ms no_members)
        (members (value depth) (length reader.old) reader.old) ≡ None }
{
    let mut found = Vec::new(bump);
    'members: while let Some(name) = reader.next_key()? {
        let member = read(bump, reader, depth)?;
        found.push((name, member))?;
    }
    Ok(into_bump_slice(found))
}
