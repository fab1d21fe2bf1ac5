// The words of a net on lines of their own, up to the word that check refuses.
use crate::describe::Described;
use crate::reason::Refused;
use crate::state::State;
use accept::check::check;
use semantics::refusal::Refusal;
use std::fmt;
use std::fmt::Write;
use word::fields::kind;

// How far in from the position a word of a kind stands: a net, its places and transitions, their parts, and the words of expressions.
fn indent(kind: u32) -> &'static str {
    match kind {
        1 => "  ",
        2 | 4 => "    ",
        7..=9 => "        ",
        _ => "      ",
    }
}

// Words that check takes, a line each; where a plan is refused at one of them, that too.
fn list_taken(
    out: &mut impl fmt::Write,
    state: &mut State,
    words: &[u32],
    unfit: Option<usize>,
) -> fmt::Result {
    for (i, &w) in words.iter().enumerate() {
        let spaces = indent(kind(w));
        let described = Described {
            state: &*state,
            words: &words[i..],
        };
        write!(out, "{i:<7}{w:08X}{spaces}{described}")?;
        if unfit == Some(i) {
            let refused = Refused {
                refusal: Refusal::UnfitPlan(i),
                due: state.due(),
                kind: kind(w),
            };
            write!(out, "; {refused}")?;
        }
        writeln!(out)?;
        state.pass(w);
    }
    Ok(())
}

// The line of a word that check refuses, or of the end of the words where they end too early.
fn print_refused(
    out: &mut impl fmt::Write,
    state: &State,
    words: &[u32],
    i: usize,
    refusal: Refusal,
) -> fmt::Result {
    let word = words.get(i);
    let refused = Refused {
        refusal,
        due: state.due(),
        kind: word.map_or(0, |&w| kind(w)),
    };
    match word {
        Some(w) => writeln!(out, "{i:<7}{w:08X}  {refused}"),
        None => writeln!(out, "{i:<7}{:10}{refused}", ""),
    }
}

// The listing of a net: whole where check takes it or refuses its plan, else up to the refused word, which no line before it shows.
pub fn list_words(out: &mut impl fmt::Write, words: &[u32]) -> fmt::Result {
    let mut state = State::new();
    match check(words) {
        Ok(()) => list_taken(out, &mut state, words, None),
        Err(Refusal::UnfitPlan(at)) => list_taken(out, &mut state, words, Some(at)),
        Err(refusal) => {
            let end = refusal.position().min(words.len());
            list_taken(out, &mut state, &words[..end], None)?;
            print_refused(out, &state, words, end, refusal)
        }
    }
}
