// The hub that ships, put together: which host, clock and policy it has.
#![tactic(auto)]

ghost use Rattle.std.specs.Prelude.{◌≡◌, IfOk, None, take};
ghost use Rattle.std.specs.Result.{result_map_both};
ghost use Rattle.boards.specs.CountBoard.{board, counts};
ghost use Rattle.hub.specs.Steps.{fresh, hub_of};

use awareness::clock::SetClock;
use boards::count_board::CountBoard;
use calls::fault::Fault;
use calls::policy::TagRanges;
use document::tally::Tally;
use hub::hub::Hub;

// A tally over a count board, a clock that is set, and the policy by ranges of tags.
pub type ProductHub = Hub<Tally<CountBoard>, SetClock, TagRanges>;

// A fresh hub of the client with this id, its clock at a reading; an id that no client can have is refused with 4.
pub fn fresh_hub(own: u64, reading: u64) -> Result<ProductHub, Fault>
    ensures fresh { result_map_both (λ h. hub_of counts h.presence (board (take h.host.host.len h.host.host.counts))) (λ f. f) result ≡ fresh counts own }
    ensures clock { IfOk result (λ h. h.clock.reading ≡ reading) }
    ensures policy { IfOk result (λ h. h.policy.latest ≡ None) }
{
    Hub::new(own, SetClock { reading }, TagRanges::new())
}
