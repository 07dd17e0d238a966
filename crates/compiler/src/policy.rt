//! Which swap is proposed next. No clause speaks of it: what is proposed is made only after it is checked.
use crate::swap::Swap;
use circuit::Gate;
use device::Ways;

/// What a policy goes by: how far places are apart, the gates to come, and where the qubits lie.
#[derive(Clone, Copy)]
pub struct View<'a> {
    pub ways: &'a Ways,
    pub later: &'a [Gate],
    pub place: &'a [u8],
}

/// Proposes swaps on the way of two qubits, which lie at a and b, to each other.
pub trait Policy {
    // Places and no qubits: each swap moves what lies there, so they are read anew from the layout.
    fn propose(&self, view: View<'_>, a: u8, b: u8) -> Option<Swap>;
}

/// How much the controlled NOTs to come count, the nearest first.
const WEIGHTS: [u8; 8] = [128, 64, 32, 16, 8, 4, 2, 1];

impl View<'_> {
    /// Whether a swap is one step toward a place.
    fn leads(self, step: Swap, to: u8) -> bool {
        let [from, next, to] = [step.x, step.y, to].map(usize::from);
        self.ways.distance(from, next) == 1
            && self.ways.distance(next, to) < self.ways.distance(from, to)
    }

    /// How far two qubits are apart after a swap, if both are laid.
    fn apart_after(self, control: u8, target: u8, swap: Swap) -> Option<u8> {
        let a = *self.place.get(usize::from(control))?;
        let b = *self.place.get(usize::from(target))?;
        let (a, b) = (swap.moved(a), swap.moved(b));
        Some(self.ways.distance(usize::from(a), usize::from(b)))
    }

    /// How far the qubits of the controlled NOTs to come are apart after a swap, the nearer gates counting more.
    fn apart_ahead(self, swap: Swap) -> u32 {
        let apart = self.later.iter().filter_map(|gate| match *gate {
            Gate::ControlledNot { control, target } => self.apart_after(control, target, swap),
            _ => None,
        });
        // Saturating: the bound that `sum` would ask for is not proved.
        WEIGHTS
            .iter()
            .zip(apart)
            .fold(0, |sum: u32, (weight, apart)| {
                sum.saturating_add(u32::from(*weight) * u32::from(apart))
            })
    }
}

/// The step of one of the two toward the other after which the qubits of the controlled NOTs to come are nearest together.
#[derive(Clone, Copy)]
pub struct LookAhead;

impl Policy for LookAhead {
    fn propose(&self, view: View<'_>, a: u8, b: u8) -> Option<Swap> {
        let steps = |from: u8, to: u8| {
            (0..16)
                .map(move |next| Swap { x: from, y: next })
                .filter(move |step| view.leads(*step, to))
        };
        steps(b, a)
            .chain(steps(a, b))
            .min_by_key(|step| view.apart_ahead(*step))
    }
}
