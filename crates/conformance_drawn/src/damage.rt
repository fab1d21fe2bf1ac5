// Damage to the net, the transition, the marking and the binding that the calls are handed.
use crate::words::Words;
use semantics::refusal::Refusal;

#[derive(Clone, Copy)]
pub enum NetDamage {
    FirstWord,
    Short,
    Long,
    // Variable 0 ranged twice.
    RangedTwice,
}

#[derive(Clone, Copy)]
pub enum MarkingDamage {
    // A TOKEN with nothing after it.
    LoneToken,
    // A TOKEN of count 0.
    CountZero,
}

#[derive(Clone, Copy)]
pub enum BindingDamage {
    // y beyond its range.
    OutOfRange,
    Short,
    Long,
}

// Damage by the part that it is done to.
#[derive(Clone, Copy)]
pub enum Damage {
    Net(NetDamage),
    // No such transition.
    Transition,
    Marking(MarkingDamage),
    Binding(BindingDamage),
}

impl Damage {
    // The kind of damage by a number; none from 10 on.
    pub fn of(k: u32) -> Option<Damage> {
        match k {
            0 => Some(Damage::Net(NetDamage::FirstWord)),
            1 => Some(Damage::Net(NetDamage::Short)),
            2 => Some(Damage::Net(NetDamage::Long)),
            3 => Some(Damage::Net(NetDamage::RangedTwice)),
            4 => Some(Damage::Transition),
            5 => Some(Damage::Marking(MarkingDamage::LoneToken)),
            6 => Some(Damage::Marking(MarkingDamage::CountZero)),
            7 => Some(Damage::Binding(BindingDamage::OutOfRange)),
            8 => Some(Damage::Binding(BindingDamage::Short)),
            9 => Some(Damage::Binding(BindingDamage::Long)),
            _ => None,
        }
    }

    // Whether two kinds are done to the same part.
    fn meets(self, other: Damage) -> bool {
        matches!(
            (self, other),
            (Damage::Net(_), Damage::Net(_))
                | (Damage::Transition, Damage::Transition)
                | (Damage::Marking(_), Damage::Marking(_))
                | (Damage::Binding(_), Damage::Binding(_))
        )
    }
}

// What the calls are handed, and the refusal for the input that is due.
#[derive(Clone, Copy)]
pub struct Input {
    pub net: Words,
    pub transition: u32,
    pub marking: Words,
    pub binding: Words,
    pub room: usize,
    pub refused: Option<Refusal>,
}

impl Input {
    // Nothing damaged; transition 0 is the net's only one.
    pub fn new(net: Words, marking: Words, binding: Words, room: usize) -> Input {
        Input {
            net,
            transition: 0,
            marking,
            binding,
            room,
            refused: None,
        }
    }

    // Two kinds of damage, the first alone where both are done to one part.
    pub fn damage(&mut self, first: Option<Damage>, second: Option<Damage>) {
        if let Some(d) = first {
            self.damage_part(d);
        }
        if let Some(d) = second
            && !first.is_some_and(|f| f.meets(d))
        {
            self.damage_part(d);
        }
    }

    // The refusal with the lower number is due.
    fn damage_part(&mut self, d: Damage) {
        let e = match d {
            Damage::Net(n) => self.damage_net(n),
            Damage::Transition => self.damage_transition(),
            Damage::Marking(m) => self.damage_marking(m),
            Damage::Binding(b) => self.damage_binding(b),
        };
        if self.refused.is_none_or(|r| e.number() < r.number()) {
            self.refused = Some(e);
        }
    }

    fn damage_net(&mut self, n: NetDamage) -> Refusal {
        let length = self.net.length;
        let last = length.saturating_sub(1);
        match n {
            NetDamage::FirstWord => {
                self.net.set(0, 0x2000_0301);
                Refusal::BadWord(0)
            }
            NetDamage::Short => {
                self.net.length = last;
                Refusal::NetEndsEarly(last)
            }
            NetDamage::Long => {
                self.net.push(0);
                Refusal::WordsLeft(length)
            }
            NetDamage::RangedTwice => {
                self.net.set(last, 0xA000_0200);
                Refusal::UnfitPlan(last)
            }
        }
    }

    fn damage_transition(&mut self) -> Refusal {
        self.transition = 1;
        Refusal::NoTransition(0)
    }

    fn damage_marking(&mut self, m: MarkingDamage) -> Refusal {
        let length = self.marking.length;
        match m {
            MarkingDamage::LoneToken => {
                self.marking.push(0xB000_0001);
                Refusal::BadMarking(self.marking.length)
            }
            MarkingDamage::CountZero => {
                self.marking.push(0xB000_0000);
                Refusal::BadMarking(length)
            }
        }
    }

    fn damage_binding(&mut self, b: BindingDamage) -> Refusal {
        match b {
            BindingDamage::OutOfRange => {
                self.binding.set(1, 0xC000_0004);
                Refusal::BadBinding(1)
            }
            BindingDamage::Short => {
                self.binding.length = 1;
                Refusal::BadBinding(1)
            }
            BindingDamage::Long => {
                self.binding.push(0xC000_0000);
                Refusal::BadBinding(2)
            }
        }
    }
}
