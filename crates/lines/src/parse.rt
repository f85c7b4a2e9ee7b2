// A line taken apart: the letter chooses the call, and what follows has to have the form that the call needs.
// A reader answers `None` where the form is another one, and `?` passes that on, so a line is malformed as soon as a part of it is.

ghost use Rattle.std.specs.Prelude.{◌≡◌, ◌≤◌, length};
ghost use Rattle.std.specs.Option.{option_map};
ghost use Rattle.lines.specs.Digits.{then};
ghost use Rattle.lines.specs.Commands.{request, ordered, meaning, parts as parts_of, numbers, if_three, alone as alone_of, giving as giving_of, taking as taking_of, asked as asked_of};
ghost use Rattle.lines.specs.declared.command.Command.TheVariants.{Set};

use crate::command::{Command, Order, Setting, Thresholds};
use crate::parts::Parts;
use keybox::call::Call;

// r, d, t and the thresholds.
fn setting(mut parts: Parts) -> Option<Setting>
    requires { length parts.rest.now ≤ 119 }
    ensures { option_map (λ s. request (Set s)) result ≡ then (parts_of parts.entry.rest.now) (λ ps. then (numbers ps) if_three) }
{
    let r = parts.number()?;
    let d = parts.number()?;
    let t = parts.number()?;
    let thresholds = Thresholds::from(&parts.numbers()?);
    Some(Setting {
        r,
        d,
        t,
        thresholds,
    })
}

// An order with no part after it.
fn alone(parts: Parts, order: Order) -> Option<Command>
    ensures { option_map request result ≡ then (parts_of parts.entry.rest.now) (alone_of (ordered order)) }
{
    parts.is_empty().then_some(Command::Order(order))
}

// A place and a word.
fn giving(mut parts: Parts) -> Option<Command>
    ensures { option_map request result ≡ then (parts_of parts.entry.rest.now) giving_of }
{
    let place = parts.number()?;
    let given = parts.word()?;
    alone(parts, Order::Call(Call::Give(place, given)))
}

// A place.
fn taking(mut parts: Parts) -> Option<Command>
    ensures { option_map request result ≡ then (parts_of parts.entry.rest.now) taking_of }
{
    let place = parts.number()?;
    alone(parts, Order::Call(Call::Take(place)))
}

// What a letter asks for with the parts after it. A P counts in the first line alone. Letters are literal cases by a rule of the project.
fn asked(letter: u8, parts: Parts, first: bool) -> Option<Command>
    requires { length parts.rest.now ≤ 119 }
    ensures { option_map request result ≡ then (parts_of parts.entry.rest.now) (asked_of first letter) }
{
    match letter {
        b'P' if !first => None,
        b'P' => Some(Command::Set(setting(parts)?)),
        b'G' => giving(parts),
        b'T' => taking(parts),
        b'L' => alone(parts, Order::Call(Call::Load)),
        b'S' => alone(parts, Order::Call(Call::Seal)),
        b'W' => alone(parts, Order::Call(Call::Wipe)),
        b'H' => alone(parts, Order::Hear),
        _ => None,
    }
}

// What a line asks for; `None` where it is malformed.
pub fn parse(line: &[u8], first: bool) -> Option<Command>
    ensures { option_map request result ≡ meaning first line.now }
{
    match line {
        [letter, rest @ ..] if line.len() <= 120 => asked(*letter, Parts { rest }, first),
        _ => None,
    }
}
