//! What the inverters of a simulation hold together.
ghost use Rattle.std.specs.Prelude.{◌≡◌, ◌*◌, ◌<◌, ◌≤◌, ◌^◌, length};
ghost use Rattle.plant_book.specs.Site.{mw_at};
ghost use Rattle.plant_simulator.specs.World.{held_by, held_in};
ghost use Rattle.plant_simulator.specs.Ready.{IsReady};

use super::Simulation;

impl Simulation {
    /// The milliwatts that an inverter holds.
    #[tactic(auto, unfolding(plant_book::specs::Site::mw_at))]
    fn mw(&self, number: u8) -> u64
        requires ready { IsReady self.now }
        requires of_site { number < length self.now.inverters }
        ensures watts { result ≡ mw_at self.now.book.site number (held_by self.now number) }
        ensures below { result ≤ 65535 * 10 ^ 12 }
    {
        let held = self.held_by(number);
        let site = self.lives.plant().site();
        let unit = &site.units[usize::from(number)];
        unit.rating.mw(held)
    }

    /// The milliwatts that all inverters hold.
    #[tactic(auto, unfolding(crate::specs::World::held_in))]
    pub fn held(&self) -> u64
        requires { IsReady self.now }
        ensures { result ≡ held_in self.now }
    {
        let mut held = 0;
        for number in 0..self.count() as u8 {
            held += self.mw(number);
        }
        held
    }
}
