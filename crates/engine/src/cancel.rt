ghost use Rattle.std.specs.Prelude.{◌≡◌};
ghost use Rattle.timer.specs.Frame.{Framed};
ghost use Rattle.timer.specs.Rules.{stop_rule};
ghost use Rattle.protocol.specs.Rules.{all_cancelled};

use channel::record::Attempt;
use timer::fault::TimerFault;
use timer::store::Store;

/// Stops the timer of a ticket that a record holds.
pub fn cancel<P, S: Store<P>>(store: &mut S, ticket: u32) -> Result<(u8, P), TimerFault>
    ensures answer { result ≡ (stop_rule (S.meaning store.old) ticket).answer }
    ensures after { S.meaning store.new ≡ (stop_rule (S.meaning store.old) ticket).after }
    ensures framed { Framed S.Store store.old store.new }
{
    store.stop(ticket)
}

/// Stops the resend timers of all places where a word waits.
pub fn cancel_all<R: Store<Attempt>>(resend: &mut R, places: [Option<u32>; 8])
    ensures after { R.meaning resend.new ≡ (all_cancelled places (R.meaning resend.old)).after }
    ensures framed { Framed R.Store resend.old resend.new }
{
    for place in places {
        if let Some(ticket) = place {
            let _ = cancel(resend, ticket);
        }
    }
}
