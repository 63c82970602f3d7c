ghost use Rattle.std.specs.Prelude.{◌≡◌, ◌<◌, ◌≤◌};
ghost use Rattle.decode.specs.Words.{word, word_count, wire_read, ram_count, ram_read, address_bits};

use crate::cells::two_bytes;
use model::RamWord;

// The entry of two bytes with this number.
pub(crate) fn word(bytes: &[u8], i: usize) -> u16
    requires { i < word_count bytes.now }
    ensures { result ≡ word bytes.now i }
{
    two_bytes(bytes, 2 * i)
}

// A word of the RAM as the tag wakes.
pub(crate) fn ram_word(bytes: &[u8], i: usize) -> Option<RamWord>
    requires { i < ram_count bytes.now }
    ensures { result ≡ ram_read bytes.now i }
{
    let value = two_bytes(bytes, 4 * i);
    let unknown = two_bytes(bytes, 4 * i + 2);
    (value & unknown == 0).then_some(RamWord { value, unknown })
}

// A wire between the memories and the nets, of which there are so many.
pub(crate) fn wire(nets: usize, bytes: &[u8], i: usize) -> Option<u16>
    requires { i < word_count bytes.now }
    ensures { result ≡ wire_read nets bytes.now i }
{
    let net = word(bytes, i);
    ((net as usize) < nets).then_some(net)
}

// How many address bits tell so many words apart, if they are a power of two.
pub(crate) fn address_bits(words: usize, most: usize) -> Option<usize>
    requires { most ≤ 10 }
    ensures { result ≡ address_bits words most }
{
    (0..most + 1).find(|bits| words == 1 << *bits)
}
