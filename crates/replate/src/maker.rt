// A site of a delivery.
ghost use Rattle.std.specs.Prelude.{◌≡◌, ◌-◌, false, true, OnErr, OnOk};
ghost use Rattle.pr_rack.specs.Told.{told};
ghost use Rattle.site_agent.proofs.Drawing.{Keeps};
ghost use Rattle.replate.specs.Making.{Asks, IsBeforeRow, IsUp, Made, SomeServed, Stopped, passed};
ghost use Rattle.replate.specs.Making.{has_left as has_left_lem, is_making as is_making_lem};
ghost use Rattle.replate.specs.Making.{keeps_next as keeps_next_lem};

use crate::RemadeEnd;
use pr_base::{Deal, NoMemory};
use pr_rack::Rack;
use ring_lanes::{Deck, Held};
use site_agent::{Kept, LeftCause, Site};

/// A site of a delivery, and its end unless a call of its rack fails.
#[derive(Drop)]
pub(crate) struct Maker {
    pub(crate) site: Site,
    pub(crate) end: RemadeEnd,
}

impl Maker {
    /// Returns whether plates are left to make.
    pub(crate) fn is_making(&self) -> bool
        requires { IsUp self.now }
        ensures { result ≡ is_making_lem self.now }
    {
        match self.end {
            RemadeEnd::Done { .. } => !self.site.is_finished(),
            RemadeEnd::Left { .. } => false,
        }
    }

    /// Returns whether the next row is one of a plate that the site has left to make.
    pub(crate) fn keeps_next(&self) -> bool
        requires { IsUp self.now }
        ensures { result ≡ keeps_next_lem self.now }
    {
        match self.end {
            RemadeEnd::Done { .. } => self.site.keeps_next(),
            RemadeEnd::Left { .. } => false,
        }
    }

    /// Passes over the next row, unless the site has left.
    pub(crate) fn pass(&mut self)
        requires next { IsBeforeRow self.old }
        requires other { keeps_next_lem self.old ≡ false }
        ensures { self.new ≡ passed self.old }
    {
        match self.end {
            RemadeEnd::Done { .. } => self.site.pass(),
            RemadeEnd::Left { .. } => {}
        }
    }

    /// Returns whether the site has left.
    fn has_left(&self) -> bool
        ensures { result ≡ has_left_lem self.now.end }
    {
        matches!(self.end, RemadeEnd::Left { .. })
    }

    /// Ends the delivery at this site for this cause.
    fn leave(&mut self, cause: LeftCause)
        ensures { self.new ≡ record self.old { end = RemadeEnd.Left cause.plates cause.path } }
    {
        self.end = RemadeEnd::Left {
            made: cause.plates,
            path: cause.path,
        };
    }
}

/// Passes a row to a site, which keeps it if it is one of a plate that the site has left to make.
fn keep<R: Rack>(site: &mut Site, held: &Held, rack: &mut R) -> Kept
    requires { Asks site.old held.now (told R.Rack rack.old).tells }
    ensures { Keeps site.old site.new held.now (told R.Rack rack.old) (told R.Rack rack.new) result }
{
    site.keep(held, rack)
}

/// Passes the row that was put last to a site, which keeps it and gives it back, unless the site has left.
#[tactic(auto, using(crate::proofs::MakerLemmas::left_stays))]
pub(crate) fn hand<D: Deal, R: Rack>(
    deck: &mut Deck<'_, D>,
    maker: &mut Maker,
    rack: &mut R,
) -> Result<(), NoMemory>
    requires put { deck.old.there ≡ true }
    requires home { deck.old.out ≡ false }
    requires some { SomeServed deck.old.rows (deck.old.put - 1) (told R.Rack rack.old) maker.old }
    ensures made { OnOk result (Made deck.old.rows (deck.old.put - 1)
        (told R.Rack rack.old) (told R.Rack rack.new) maker.old maker.new) }
    ensures stopped { OnErr result (Stopped deck.old.rows (deck.old.put - 1)
        (told R.Rack rack.old) (told R.Rack rack.new) maker.old) }
    ensures memory_missed { OnErr result (R.missed rack.new ≡ R.missed rack.old) }
    ensures deck { deck.new ≡ deck.old }
{
    if maker.has_left() {
        return Ok(());
    }
    let held = deck.take();
    let kept = keep(&mut maker.site, &held, rack);
    deck.give(held);
    match kept {
        Kept::Done => Ok(()),
        Kept::Left(cause) => {
            maker.leave(cause);
            Ok(())
        }
        Kept::Memory => Err(NoMemory),
    }
}
