// Messages written from their parts.
ghost use Rattle.message.specs.Writing.{message_out};
ghost use Rattle.calls.specs.Refusals.{sent, Put};

use calls::answer::Refusal;
use message::write;
use message::write::Outgoing;

// A message at the front of a buffer, and its length.
pub fn write<M: Outgoing>(m: &M, out: &mut [u8]) -> Result<usize, Refusal>
    ensures { Put out.old (sent (message_out (M.Outgoing.told m.now))) result out.new }
{
    Ok(write::write(m, out)?)
}
