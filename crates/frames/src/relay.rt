ghost use Rattle.std.specs.Prelude.{◌≡◌, ◌==◌, [], ◌∷◌, length, true, false, IsFalse, IsTrue, ◌↔◌};
ghost use Rattle.std.specs.Bool.{OnTrue, OnFalse};
ghost use Rattle.frames.specs.Relay.{is_zone_closed, relay_off, zone_ended, zone_opened, zone_value};

use arrayvec::ArrayVec;
use std::marker::Model;

/// How many zones of a master control relay (MCR) may be open at once.
const ZONES: usize = 8;

/// The values of the open zones of a master control relay (MCR). A contract sees the list of them,
/// the innermost one first.
#[derive(Drop)]
pub struct Zones {
    /// The values of the open zones, the outermost one first.
    values: ArrayVec<bool, ZONES>,
}

impl Model for Zones {
    ghost use Rattle.std.specs.Prelude.{Bool, List, reverse};

    ghost Value = { List Bool };

    ghost view = { λ z. reverse z.values.items };
}

impl Zones {
    /// No open zones.
    pub fn new() -> Zones
        ensures { result ≡ [] }
    {
        Zones {
            values: ArrayVec::new(),
        }
    }

    /// How many zones are open.
    pub fn len(&self) -> usize
        ensures { result ≡ length self.now }
    {
        self.values.len()
    }

    /// A copy of the open zones, with no memory taken.
    pub fn copied(&self) -> Zones
        ensures { result ≡ self.now }
    {
        let mut values = ArrayVec::new();
        for value in self.values.as_slice() {
            values.push(*value);
        }
        Zones { values }
    }

    // Makes these zones a copy of others. Mostly there are none.
    #[inline(always)]
    #[tactic(auto, using(crate::proofs::Nothing::none_there))]
    fn copy_from(&mut self, other: &Zones)
        ensures { self.new ≡ other.now }
    {
        if other.len() == 0 {
            self.values.clear();
        } else {
            *self = other.copied();
        }
    }

    // The value of the last zone; 1 where none is open.
    #[tactic(auto, using(crate::proofs::ZoneLemmas::last_value, crate::proofs::ZoneLemmas::no_value))]
    fn value(&self) -> bool
        ensures { result ≡ zone_value self.now }
    {
        let values = self.values.as_slice();
        if values.is_empty() {
            return true;
        }
        values[values.len() - 1]
    }
}

/// The master control relay of a frame: whether it is active, and its open zones.
#[derive(Drop)]
pub struct Relay {
    /// Whether the relay is active, as after `MCRA`.
    pub active: bool,
    /// The values of the open zones.
    pub zones: Zones,
}

impl Relay {
    /// The master control relay (MCR) as a block begins: inactive, with no open zone.
    pub fn off() -> Relay
        ensures { result ≡ relay_off }
    {
        Relay {
            active: false,
            zones: Zones::new(),
        }
    }

    /// A copy of the relay.
    pub fn copied(&self) -> Relay
        ensures { result ≡ self.now }
    {
        Relay {
            active: self.active,
            zones: self.zones.copied(),
        }
    }

    /// Makes this relay a copy of another one.
    #[inline(always)]
    pub(crate) fn copy_from(&mut self, other: &Relay)
        ensures { self.new ≡ other.now }
    {
        self.active = other.active;
        self.zones.copy_from(&other.zones);
    }

    /// `MCR(`: a zone opens, whose value is the RLO AND the value of the zone around it. False,
    /// with nothing changed, where eight are open.
    pub fn open(&mut self, rlo: bool) -> bool
        ensures full { IsFalse result ↔ (length self.old.zones ≡ 8) }
        ensures open { OnTrue result (self.new ≡ zone_opened rlo self.old) }
        ensures unchanged { OnFalse result (self.new ≡ self.old) }
    {
        if self.zones.values.is_full() {
            return false;
        }
        let value = rlo && self.zones.value();
        self.zones.values.push(value);
        true
    }

    /// `)MCR`: the innermost open zone ends. False, with nothing changed, where none is open.
    pub fn end(&mut self) -> bool
        ensures none { IsFalse result ↔ (self.old.zones ≡ []) }
        ensures ended { self.new ≡ zone_ended self.old }
    {
        self.zones.values.pop().is_some()
    }

    /// Whether the relay is active and the innermost zone has the value 0, so that writing
    /// instructions write 0 or nothing.
    #[inline(always)]
    pub fn is_zone_closed(&self) -> bool
        ensures { result ≡ is_zone_closed self.now }
    {
        self.active && !self.zones.value()
    }
}
