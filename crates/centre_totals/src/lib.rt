// Field 48 of the simulated centre's answer to a settlement: the totals as they were sent, and the reconciliation digit.
#![tactic(auto)]

ghost use Rattle.std.specs.Prelude.{◌≡◌};
ghost use Rattle.parts.specs.Layout.{with_part};
ghost use Rattle.centre_totals.specs.Totals.{sent_part, field48_with};

use message::Message;
use parts::Part;

// The digits of field 48 with the totals as sent and this digit.
pub fn field48_with(sent: &Message, digit: u8) -> [u8; parts::FIELD48]
    ensures { result ≡ field48_with sent.now digit }
{
    let mut ds = [0; parts::FIELD48];
    put_sent(sent, Part::DebitAmount, &mut ds);
    put_sent(sent, Part::DebitCount, &mut ds);
    put_sent(sent, Part::CreditAmount, &mut ds);
    put_sent(sent, Part::CreditCount, &mut ds);
    parts::put_part(Part::Reconciliation, u64::from(digit), &mut ds);
    ds
}

// Puts a part as it was sent.
fn put_sent(sent: &Message, p: Part, ds: &mut [u8])
    ensures { ds.new ≡ with_part p (sent_part p sent.now) ds.old }
{
    parts::put_part(p, parts::part_of(sent, p).unwrap_or(0), ds);
}
