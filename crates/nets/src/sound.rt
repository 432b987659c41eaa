ghost use Rattle.std.specs.Prelude.{◌≡◌};
ghost use Rattle.nets.specs.Views.{of_net, Good};

use crate::Net;

// A net in range whose rates balance every link.
#[derive(Clone, Copy, Debug, PartialEq, Eq)]
pub struct SoundNet {
    pub net: Net,
    ghost good: { ∥ Good net ∥₁ },
}

impl SoundNet {
    // The durations of its stations.
    pub fn durations(&self) -> &[u16]
        ensures { result.now ≡ (of_net self.now.net).durations }
    {
        &self.net.durations[..self.net.stations as usize]
    }

    // The rates of its stations.
    pub fn rates(&self) -> &[u16]
        ensures { result.now ≡ (of_net self.now.net).rates }
    {
        &self.net.rates[..self.net.stations as usize]
    }
}
