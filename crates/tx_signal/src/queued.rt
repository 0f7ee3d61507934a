//! A realtime signal in the queue.
use std::marker::Model;
use tx_base::Signo;

/// A realtime signal in the queue, with the value that it brings. Its number is 32 to 39.
/// POSIX.1-2017, XSH, sigqueue().
#[derive(Clone, Copy)]
pub struct Queued {
    pub signo: Signo,
    pub value: i64,
}

impl Model for Queued {
    ghost use Rattle.tx_signal.specs.Numbers.{IsRealtime};
    ghost use Rattle.tx_model.specs.State.{Queued as Entry};

    ghost Value = { Entry };

    ghost view = { λ entry. record { signo = entry.signo.0; value = entry.value } };

    ghost invariant = { λ entry. IsRealtime entry.signo.0 };

    ghost inverse = { λ entry. record { signo = record { 0 = entry.signo }; value = entry.value } };
}

impl Default for Queued {
    fn default() -> Queued {
        Queued {
            signo: Signo(32),
            value: 0,
        }
    }
}
