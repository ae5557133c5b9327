// A client's count: which of two stands above the other, and how one is read.
ghost use Rattle.std.specs.Prelude.{◌≡◌, ◌^◌, ◌<◌, IfOk, nat_lt};
ghost use Rattle.encoding.specs.Reading.{read};
ghost use Rattle.boards.specs.declared.count.Count.{Count};
ghost use Rattle.boards.specs.CountBoard.{count_in};
ghost use Rattle.std.proofs.Common.{rules};

use encoding::entries::Decode;
use encoding::fault::WireFault;
use encoding::read::read_client_id;
use encoding::var_uint::read_var;
use state_vector::keyed::Keyed;
use state_vector::standing::Standing;

// A client, and its count. Read and written as a vector's entry is, and not one type with it: a count is no clock, for 0 is as if absent and the greater stands above.
#[derive(Clone, Copy, Debug, Default, PartialEq, Eq)]
pub struct Count {
    pub client: u64,
    pub count: u32,
}

impl Keyed for Count {
    ghost key = { λ e. e.client };

    fn client(&self) -> u64 {
        self.client
    }
}

impl Standing for Count {
    ghost above = { λ x y. nat_lt y.count x.count };

    ghost irreflexive = { Prim.search rules };

    ghost asymmetric = { Prim.search rules };

    ghost third = { Prim.search rules };

    // The greater count stands above.
    fn stands_above(&self, held: &Count) -> bool {
        self.count > held.count
    }
}

impl<'a> Decode<'a> for Count {
    ghost item = { Count };

    ghost says = { λ e. e };

    ghost holds = { λ e. (e.client < 2 ^ 53) × (e.count < 2 ^ 32) };

    ghost entry = { count_in };

    // A client id, then a count.
    fn read(s: &'a [u8]) -> Result<(Count, &'a [u8]), WireFault> {
        let (client, rest) = read_client_id(s)?;
        let (count, rest) = read_var::<u32>(rest)?;
        Ok((Count { client, count }, rest))
    }
}
