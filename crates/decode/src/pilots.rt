ghost use Rattle.std.specs.Prelude.{◌≡◌, ◌<◌, ◌≤◌, length, slice_index_or};
ghost use Rattle.model.specs.Core.{no_net, is_flop, tally};
ghost use Rattle.decode.specs.Words.{word, word_count};
ghost use Rattle.decode.specs.Pilots.{repeated, pilot_read};

use crate::words::word;
use model::Net;

// How many of these nets are flops.
pub(crate) fn count_flops(nets: &[Net]) -> usize
    ensures { result ≡ tally is_flop nets.now }
{
    nets.iter().filter(|net| net.driver.is_flop()).count()
}

fn flop_at(nets: &[Net], i: usize) -> bool
    requires { i < length nets.now }
    ensures { result ≡ is_flop (slice_index_or nets.now i no_net).driver }
{
    nets[i].driver.is_flop()
}

// Whether a pilot before entry i is net p.
fn repeated(bytes: &[u8], i: usize, p: u16) -> bool
    requires { i ≤ word_count bytes.now }
    ensures { result ≡ repeated bytes.now i p }
{
    (1..i).any(|j| p == word(bytes, j))
}

// An entry of the mark and the pilots: a net, and past the mark a flop that is no pilot before it.
pub(crate) fn pilot(nets: &[Net], bytes: &[u8], i: usize) -> Option<u16>
    requires { i < word_count bytes.now }
    ensures { result ≡ pilot_read nets.now bytes.now i }
{
    let net = word(bytes, i);
    let p = net as usize;
    let right = p < nets.len() && (i == 0 || (flop_at(nets, p) && !repeated(bytes, i, net)));
    right.then_some(net)
}
