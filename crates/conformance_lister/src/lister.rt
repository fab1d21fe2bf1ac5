// The lister: all bindings of a transition by rising variable 0, then 1 and on, each kept where it is enabled under the counts.
use crate::flow::is_enabled;
use conformance_plain::counts::Counts;
use conformance_plain::reading::Shape;
use conformance_plain::tuples::{put_slots, tuple_at, tuples};

// How many bindings are listed, and the number of their words.
#[derive(Clone, Copy)]
pub struct Listing {
    pub count: u32,
    pub words: usize,
}

// The enabled bindings of a transition.
pub fn list_all(s: Shape<'_>, c: &Counts, list: &mut [u32]) -> Listing {
    let mut l = Listing { count: 0, words: 0 };
    for index in 0..tuples(s.net, s.ranges, s.variables) {
        let b = tuple_at(s.net, s.ranges, s.variables, index);
        if is_enabled(s, c, b) {
            l.count = l.count.wrapping_add(1);
            l.words = put_slots(list, l.words, b, s.variables);
        }
    }
    l
}
