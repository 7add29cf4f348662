//! The lengths of a table's prefixes, by which its entries are looked up: the longest first.

ghost use Rattle.std.specs.Prelude.{◌≡◌, ◌&&◌, ◌+◌, ◌-◌, ◌<◌, ◌≤◌, ℕ, if◌then◌else◌, length, min, nat_le, replicate, slice_index};
ghost use Rattle.pfs_addr_values.specs.Addresses.{same_family, width_of};
ghost use Rattle.pfs_addr_values.specs.declared.addresses.Addr.{Addr};
ghost use Rattle.pfs_eval.specs.Lengths.{AreLong, next};

use pfs_addr_values::Addr;

/// Which lengths a table's prefixes have or had, as numbers of bits left out (0 for a host). Each place has the least
/// such number from there on, or one more than the address has bits.
#[derive(Clone, Copy)]
pub struct Lengths {
    /// For IPv4, at 0 to 33 bits left out.
    inet: [u8; 34],
    /// For IPv6, at 0 to 129 bits left out.
    inet6: [u8; 130],
}

impl Lengths {
    /// No lengths.
    pub fn none() -> Lengths
        ensures { result ≡ record { inet = replicate 34 33; inet6 = replicate 130 129 } }
    {
        Lengths {
            inet: [33; 34],
            inet6: [129; 130],
        }
    }

    /// The fewest bits, from a number on, that a prefix of this address's family leaves out or left out, or one
    /// more than the address has bits.
    #[inline(always)]
    pub fn next(&self, addr: Addr, from: u8) -> u8
        requires from { from ≤ width_of addr + 1 }
        requires long { AreLong self.now }
        ensures { result ≡ next self.now addr from }
    {
        match addr {
            Addr::V4(_) => self.inet[usize::from(from)],
            Addr::V6(_) => self.inet6[usize::from(from)],
        }
    }

    /// Notes that a prefix of this address leaves out so many bits.
    pub fn note(&mut self, addr: Addr, hidden: u8)
        requires hidden { hidden ≤ width_of addr }
        requires long { AreLong self.old }
        ensures long { AreLong self.new }
        ensures noted { (a : Addr) (n : ℕ) → n ≤ width_of a + 1 →
            next self.new a n ≡ (if same_family a addr && nat_le n hidden then min (next self.old a n) hidden else next self.old a n) }
    {
        match addr {
            Addr::V4(_) => lower_up_to(&mut self.inet, hidden),
            Addr::V6(_) => lower_up_to(&mut self.inet6, hidden),
        }
    }
}

/// Lowers the number at each place up to `last` to at most `last`.
fn lower_up_to(places: &mut [u8], last: u8)
    requires { last < length places.old }
    ensures { (n : ℕ) → n < length places.old →
        slice_index places.new n ≡ (if nat_le n last then min (slice_index places.old n) last else slice_index places.old n) }
{
    for place in 0..usize::from(last) + 1 {
        places[place] = places[place].min(last);
    }
}
