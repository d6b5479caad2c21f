//! A probe element: where it is fitted, and what it last told.
ghost use Rattle.std.specs.Prelude.{◌≡◌};
ghost use Rattle.probe.specs.Elements.{state_of, heard, counted};

use working::element::CountingElement;

const COLDEST_GOOD: i32 = -4_000;

const WARMEST_GOOD: i32 = 15_000;

/// Temperatures are in hundredths of a °C.
#[derive(Clone, Copy, PartialEq, Eq, Debug)]
pub enum ElementState {
    /// No temperature yet.
    Unheard,
    Good(i32),
    /// Below -40 °C: the element is short-circuited.
    Short,
    /// Above 150 °C: its circuit is open.
    Open,
}

#[derive(Clone, Copy, PartialEq, Eq, Debug)]
pub struct ProbeElement {
    /// In tenths of a millimetre.
    pub height: u32,
    pub state: ElementState,
}

impl From<i32> for ElementState {
    ghost from_gives = { λ hundredths state. state ≡ state_of hundredths };

    fn from(hundredths: i32) -> Self {
        if hundredths < COLDEST_GOOD {
            ElementState::Short
        } else if hundredths > WARMEST_GOOD {
            ElementState::Open
        } else {
            ElementState::Good(hundredths)
        }
    }
}

impl ProbeElement {
    /// Takes a temperature; its height stays.
    pub fn hear(&mut self, hundredths: i32)
        ensures { self.new ≡ heard self.old hundredths }
    {
        self.state = ElementState::from(hundredths);
    }

    /// The element as it counts in the liquid from the water up to the level, where it does.
    pub fn counted(self, water: u32, level: u32) -> Option<CountingElement>
        ensures { result ≡ counted water level self }
    {
        match self.state {
            ElementState::Good(hundredths) if (water..=level).contains(&self.height) => Some(
                CountingElement {
                    height: self.height,
                    hundredths,
                },
            ),
            _ => None,
        }
    }
}
