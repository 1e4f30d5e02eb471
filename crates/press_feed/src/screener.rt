// How an ink is screened: by a tile or by error diffusion.
ghost use Rattle.std.specs.Prelude.{◌≡◌, ℕ, ◌<◌, IfOk, IsTrue, length};
ghost use Rattle.plan_parts.specs.Parts.{is_bayer};
ghost use Rattle.scr_tile.specs.AnyTile.{threshold_of};
ghost use Rattle.scr_tile.specs.Tile.{threshold_at};
ghost use Rattle.press_feed.specs.Screener.{AreScreeners, is_diffused};
ghost use Rattle.press_job.specs.Printing.{own_threshold};

use plan_json::{Plan, Screen};
use pr_base::{Ink, NoMemory};
use scr_tile::AnyTile;
use std::alloc::Global;

/// Turns the values of an ink into pixels.
#[derive(Drop)]
pub(crate) enum Screener {
    Tile(AnyTile),
    /// Error diffusion: each page has a chain of its own.
    Diffusion,
}

impl Screener {
    ghost use Rattle.press_feed.specs.Screener.{IsScreener};

    /// Returns the screener of an ink of the plan.
    pub(crate) fn of(alloc: Global, plan: &Plan, ink: Ink) -> Result<Screener, NoMemory>
        ensures { IfOk result (IsScreener plan.now ink) }
    {
        match plan.screens[ink.slot()] {
            Screen::Bayer(side) => Ok(Screener::Tile(bayer_tile(side))),
            Screen::Diffuse => Ok(Screener::Diffusion),
            Screen::Own(tile) => Ok(Screener::Tile(own_tile(alloc, plan, tile)?)),
        }
    }
}

/// Whether the plan diffuses an ink.
pub(crate) fn has_diffused(plan: &Plan, ink: Ink) -> bool
    ensures { result ≡ is_diffused plan.now ink }
{
    match plan.screens[ink.slot()] {
        Screen::Diffuse => true,
        _ => false,
    }
}

/// Returns the screeners of all inks, by slot.
pub(crate) fn open_screeners(alloc: Global, plan: &Plan) -> Result<Vec<Screener>, NoMemory>
    ensures { IfOk result (λ screeners. AreScreeners plan.now screeners.items) }
{
    let mut screeners = Vec::with_capacity(alloc, Ink::ALL.len())?;
    for ink in Ink::ALL {
        screeners.push(Screener::of(alloc, plan, ink)?)?;
    }
    Ok(screeners)
}

/// Returns the Bayer tile with a side that a plan can name.
fn bayer_tile(side: u8) -> AnyTile
    requires { IsTrue (is_bayer side) }
    ensures { (x y : ℕ) → threshold_of result x y ≡ threshold_at side x y }
{
    match AnyTile::bayer(side) {
        Some(tile) => tile,
        None => unreachable!(),
    }
}

/// Returns the plan's tile with this index.
fn own_tile(alloc: Global, plan: &Plan, tile: usize) -> Result<AnyTile, NoMemory>
    requires { tile < length plan.now.tiles }
    ensures { IfOk result (λ made. (x y : ℕ) → threshold_of made x y ≡ own_threshold plan.now tile x y) }
{
    let tile = &plan.tiles[tile];
    Ok(AnyTile::own(tile.width, tile.height, tile.at.as_slice().to_vec(alloc)?))
}
