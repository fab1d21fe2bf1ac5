// What a word is, in words, by the structure that it stands in.
use crate::spell::{operator_name, put_expression};
use crate::state::{Inside, State};
use std::fmt;
use word::fields::{kind, payload, range_of, signed};

// So many of something.
#[derive(Clone, Copy)]
struct Many<'a>(u32, &'a str);

impl fmt::Display for Many<'_> {
    fn fmt<W: fmt::Write>(&self, f: &mut fmt::Formatter<W>) -> fmt::Result {
        let Many(n, name) = *self;
        let ending = if n == 1 { "" } else { "s" };
        write!(f, "{n} {name}{ending}")
    }
}

// The first of some words, which stands at a state.
#[derive(Clone, Copy)]
pub struct Described<'a> {
    pub state: &'a State,
    pub words: &'a [u32],
}

// A transition and how many it has of each part.
fn put_transition<W: fmt::Write>(f: &mut fmt::Formatter<W>, s: &State, p: u32) -> fmt::Result {
    write!(f, "transition {}", s.transitions)?;
    write!(f, ", {}", Many(p % 16, "variable"))?;
    write!(f, ", {}", Many(p / 16 % 16, "input arc"))?;
    write!(f, ", {}", Many(p / 256 % 16, "output arc"))?;
    write!(f, ", {}", Many(p / 4096 % 16, "conjunct"))?;
    write!(f, ", {}", Many(p / 65536 % 16, "element"))
}

// The range of a component or a variable.
fn put_range<W: fmt::Write>(f: &mut fmt::Formatter<W>, s: &State, w: u32) -> fmt::Result {
    let name = if s.inside == Inside::Place {
        "component"
    } else {
        "variable"
    };
    let range = range_of(w);
    write!(
        f,
        "{name} {}, from {} to {}",
        s.ranges, range.low, range.high
    )
}

// Whether an arc is an input or an output, its number among those, and its place. The outputs stand behind the inputs.
fn put_ends<W: fmt::Write>(f: &mut fmt::Formatter<W>, s: &State, place: u32) -> fmt::Result {
    let inputs = s.head / 16 % 16;
    let arc = s.arcs;
    if arc < inputs {
        write!(f, "input arc {arc} from place {place}")
    } else {
        write!(f, "output arc {} to place {place}", arc - inputs)
    }
}

// So many expressions, one behind the other, with commas between them.
fn put_components<W: fmt::Write>(
    f: &mut fmt::Formatter<W>,
    words: &[u32],
    width: u32,
) -> fmt::Result {
    let mut rest = words;
    for k in 0..width {
        if 0 < k {
            write!(f, ", ")?;
        }
        rest = put_expression(f, rest)?;
    }
    Ok(())
}

// An arc with its coefficient and its components, which stand behind it.
fn put_arc<W: fmt::Write>(
    f: &mut fmt::Formatter<W>,
    s: &State,
    w: u32,
    rest: &[u32],
) -> fmt::Result {
    put_ends(f, s, payload(w) % 256)?;
    write!(f, ", coefficient ")?;
    let components = put_expression(f, rest)?;
    write!(f, ", components (")?;
    put_components(f, components, s.width(w))?;
    write!(f, ")")
}

// The sign of a relation.
fn relation_sign(code: u32) -> &'static str {
    match code {
        0 => "=",
        1 => "/=",
        2 => "<",
        _ => "<=",
    }
}

// A conjunct with both its sides, which stand behind it.
fn put_conjunct<W: fmt::Write>(
    f: &mut fmt::Formatter<W>,
    s: &State,
    p: u32,
    rest: &[u32],
) -> fmt::Result {
    write!(f, "conjunct {}, ", s.conjuncts)?;
    let right = put_expression(f, rest)?;
    write!(f, " {} ", relation_sign(p % 4))?;
    put_expression(f, right)?;
    Ok(())
}

// What an element does, by its sort.
fn sort_name(sort: u32) -> &'static str {
    match sort {
        0 => "match of input arc",
        1 => "solve of conjunct",
        _ => "range of variable",
    }
}

// An element of a plan.
fn put_element<W: fmt::Write>(f: &mut fmt::Formatter<W>, s: &State, p: u32) -> fmt::Result {
    let sort = sort_name(p / 256 % 4);
    write!(f, "element {}, {sort} {}", s.elements, p % 256)
}

impl fmt::Display for Described<'_> {
    fn fmt<W: fmt::Write>(&self, f: &mut fmt::Formatter<W>) -> fmt::Result {
        let s = self.state;
        let Some((&w, rest)) = self.words.split_first() else {
            return Ok(());
        };
        let p = payload(w);
        match kind(w) {
            1 => write!(
                f,
                "net, {}, {}",
                Many(p / 256 % 256, "place"),
                Many(p % 256, "transition")
            ),
            2 => write!(f, "place {}, {}", s.places, Many(p % 8, "component")),
            3 => put_range(f, s, w),
            4 => put_transition(f, s, p),
            5 => put_arc(f, s, w, rest),
            6 => put_conjunct(f, s, p, rest),
            7 => write!(f, "{}", signed(w)),
            8 => write!(f, "variable {}", w % 8),
            9 => f.write_str(operator_name(p % 8)),
            10 => put_element(f, s, p),
            0 | 11..=15 => Ok(()),
            _ => Ok(()),
        }
    }
}
