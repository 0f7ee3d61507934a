//! What leads over an accepted step, back or forward again.
ghost use Rattle.std.specs.Prelude.{◌≡◌, Some};
ghost use Rattle.tx_content.specs.Crossings.{inverse_at, moved_by_turn, moved_over};

use crate::inverse::Inverse;
use crate::member_step::MemberStep;
use crate::undone::Undone;
use tx_change::Log;

/// What leads over an accepted step: back, or, once it is taken back, forward again. `take_back`
/// and `redo` exchange the one for the other in place.
#[derive(Drop)]
pub enum Crossing {
    /// Back, and then forward again: what it has is exchanged.
    Turn(Turn),
    /// Back.
    Back(Inverse),
    /// Forward, over a step that was taken back.
    Forward(Undone),
}

/// What leads both ways over a step outside that posted nothing to what is kept of a starter, and
/// over a step inside that handed out no signal.
#[derive(Drop)]
pub enum Turn {
    Outside(Log),
    Inside(MemberStep),
}

impl From<Inverse> for Crossing {
    ghost from_gives = { λ inverse crossing. inverse_at crossing ≡ Some inverse };

    fn from(inverse: Inverse) -> Crossing {
        match inverse {
            Inverse::Outside { log, post: None } => Crossing::Turn(Turn::Outside(log)),
            Inverse::Inside { step, held: false } => Crossing::Turn(Turn::Inside(step)),
            inverse => Crossing::Back(inverse),
        }
    }
}

impl Crossing {
    /// What leads over no step: for a place for a crossing.
    pub(crate) fn blank() -> Crossing {
        Crossing::Back(Inverse::blank())
    }

    /// The inverse of the step. None if this leads forward.
    pub fn into_inverse(self) -> Option<Inverse>
        ensures { result ≡ inverse_at self }
    {
        match self {
            Crossing::Turn(Turn::Outside(log)) => Some(Inverse::Outside { log, post: None }),
            Crossing::Turn(Turn::Inside(step)) => Some(Inverse::Inside { step, held: false }),
            Crossing::Back(inverse) => Some(inverse),
            Crossing::Forward(_) => None,
        }
    }

    /// How many changes go onto the stack as the step is taken back, or off it as it is made again.
    pub fn moved(&self) -> usize
        ensures { result ≡ moved_over self.now }
    {
        match self {
            Crossing::Turn(turn) => turn.moved(),
            Crossing::Back(inverse) => inverse.moved(),
            Crossing::Forward(undone) => undone.moved(),
        }
    }
}

impl Turn {
    /// How many changes go onto the stack, or off it.
    fn moved(&self) -> usize
        ensures { result ≡ moved_by_turn self.now }
    {
        match self {
            Turn::Outside(_) => 0,
            Turn::Inside(step) => step.count,
        }
    }
}
