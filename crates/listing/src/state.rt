// Where in a net a word stands: what has been passed of the structure around it, and so which kind of word is due.
use word::fields::{kind, payload};

// What the last NET, PLACE or TRANSITION word began.
#[derive(Clone, Copy, PartialEq, Eq)]
pub enum Inside {
    Nothing,
    Net,
    Place,
    Transition,
}

// The kind of word that is due.
#[derive(Clone, Copy)]
pub enum Due {
    Net,
    Place,
    Range,
    Transition,
    Arc,
    Conjunct,
    Expression,
    Element,
}

// The payloads of the NET word and of the last PLACE or TRANSITION word, what was begun last, how many places and transitions have begun, how many RANGE
// words, arcs, conjuncts and elements the last of them has had, how many expressions are still due, and the number of components of each place.
// The counts saturate only so that none of them asks for room: a net has at most 16,384 words.
#[derive(Clone, Copy)]
pub struct State {
    pub net: u32,
    pub head: u32,
    pub inside: Inside,
    pub places: u32,
    pub transitions: u32,
    pub ranges: u32,
    pub arcs: u32,
    pub conjuncts: u32,
    pub elements: u32,
    pub terms: u32,
    widths: [u32; 64],
}

impl State {
    // Before the first word.
    pub fn new() -> Self {
        State {
            net: 0,
            head: 0,
            inside: Inside::Nothing,
            places: 0,
            transitions: 0,
            ranges: 0,
            arcs: 0,
            conjuncts: 0,
            elements: 0,
            terms: 0,
            widths: [0; 64],
        }
    }

    // The number of components of the place that an ARC word names.
    pub fn width(&self, arc: u32) -> u32 {
        let place = payload(arc) % 256;
        self.widths.get(place as usize).copied().unwrap_or(0)
    }

    // A PLACE or a TRANSITION begins.
    fn begin(&mut self, inside: Inside, head: u32) {
        self.head = head;
        self.inside = inside;
        self.ranges = 0;
        self.arcs = 0;
        self.conjuncts = 0;
        self.elements = 0;
        self.terms = 0;
    }

    // The next place has so many components.
    fn set_width(&mut self, width: u32) {
        if let Some(of_place) = self.widths.get_mut(self.places as usize) {
            *of_place = width;
        }
    }

    // Goes past a word that was taken. An arc has its coefficient and its components, an OPERATOR two operands in its own place, or one for load.
    pub fn pass(&mut self, w: u32) {
        let p = payload(w);
        match kind(w) {
            1 => {
                self.net = p;
                self.inside = Inside::Net;
            }
            2 => {
                self.begin(Inside::Place, p);
                self.set_width(p % 8);
                self.places = self.places.saturating_add(1);
            }
            3 => self.ranges = self.ranges.saturating_add(1),
            4 => {
                self.begin(Inside::Transition, p);
                self.transitions = self.transitions.saturating_add(1);
            }
            5 => {
                self.arcs = self.arcs.saturating_add(1);
                self.terms = self.width(w).saturating_add(1);
            }
            6 => {
                self.conjuncts = self.conjuncts.saturating_add(1);
                self.terms = 2;
            }
            7 | 8 => self.terms = self.terms.saturating_sub(1),
            9 => {
                if p % 8 != 4 {
                    self.terms = self.terms.saturating_add(1);
                }
            }
            10 => self.elements = self.elements.saturating_add(1),
            0 | 11..=15 => {}
            _ => {}
        }
    }

    // What is due in a transition; another one where it is complete.
    fn due_in_transition(&self) -> Due {
        let t = self.head;
        if self.ranges < t % 16 {
            Due::Range
        } else if self.arcs < t / 16 % 16 + t / 256 % 16 {
            Due::Arc
        } else if self.conjuncts < t / 4096 % 16 {
            Due::Conjunct
        } else if self.elements < t / 65536 % 16 {
            Due::Element
        } else {
            Due::Transition
        }
    }

    // What is due where no structure is in its midst.
    fn due_between(&self) -> Due {
        if self.places < self.net / 256 % 256 {
            Due::Place
        } else {
            Due::Transition
        }
    }

    // The kind of word that is due.
    pub fn due(&self) -> Due {
        match self.inside {
            Inside::Nothing => Due::Net,
            _ if 0 < self.terms => Due::Expression,
            Inside::Transition => self.due_in_transition(),
            Inside::Place if self.ranges < self.head % 8 => Due::Range,
            Inside::Place | Inside::Net => self.due_between(),
        }
    }
}
