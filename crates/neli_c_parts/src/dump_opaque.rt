//! What C holds of a dump.

ghost use Rattle.std.specs.Prelude.{◌≡◌, Option, Some, None, true, false, is_some, option_map};

use crate::dump_place::DumpPlace;
use crate::dumping::Dumping;
use neli_loose::loose::Loose;
use std::alloc::Global;
use std::mem::replace;

/// A dump, or none. All its bytes 0 is none.
#[repr(C)]
#[derive(Drop)]
pub struct NeliKernelDump {
    is_open: bool,
    pub place: DumpPlace,
    ghost has: { is_open ≡ is_some place.value },
}

impl NeliKernelDump {
    fn closed(alloc: Global) -> NeliKernelDump
        ensures { result.place.value ≡ None }
    {
        NeliKernelDump {
            is_open: false,
            place: DumpPlace::empty(alloc),
        }
    }

    /// Takes the dump out, if there is one.
    pub fn take(&mut self, alloc: Global) -> Option<Box<Dumping, Global>>
        ensures taken { option_map (λ b. b.value) result ≡ self.old.place.value }
        ensures left { self.new.place.value ≡ None }
    {
        let NeliKernelDump { is_open, place } = replace(self, NeliKernelDump::closed(alloc));
        if is_open {
            Some(place.into_loose().into_box())
        } else {
            None
        }
    }

    /// Puts a dump in.
    pub fn put(&mut self, dumping: Box<Dumping, Global>)
        requires { self.old.place.value ≡ None }
        ensures { self.new.place.value ≡ Some dumping.value }
    {
        *self = NeliKernelDump {
            is_open: true,
            place: DumpPlace::of(Loose::of(dumping)),
        };
    }
}
