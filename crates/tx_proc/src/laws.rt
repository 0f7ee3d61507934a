//! The laws of exchanges of parts of a process, as the contracts of functions that do nothing.
ghost use Rattle.tx_proc.specs.Laws.{Commute, ExchangesBack, NothingElse, TwiceIsNothing};

use tx_signal::swap_entry_twice;

/// Two exchanges of one part are nothing: the process and the part come back.
pub fn twice_is_nothing()
    ensures { TwiceIsNothing }
{
    swap_entry_twice();
}

/// To exchange a part again puts the process back.
pub fn exchanges_back()
    ensures { ExchangesBack }
{
    swap_entry_twice();
}

/// An exchange leaves every other part of the process as it was.
pub fn nothing_else()
    ensures { NothingElse }
{}

/// Two parts may be exchanged in either order.
pub fn commute()
    ensures { Commute }
{}
