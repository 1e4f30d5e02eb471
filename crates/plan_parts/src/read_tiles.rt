// Reading threshold tiles, and the screen of each ink.
ghost use Rattle.std.specs.Prelude.{◌≡◌, [], Some, None, option_map, drop, nat_eq, if◌then◌else◌, codes};
ghost use Rattle.std.specs.List.{starts_with};
ghost use Rattle.plan_parts.specs.Gives.{Gives};
ghost use Rattle.plan_parts.specs.Node.{at, inside};
ghost use Rattle.plan_parts.specs.Printing as spec;
ghost use Rattle.plan_parts.specs.Reading.{number, optional};

use crate::{
    ItemReader, ListOf, NewName, Node, Number, Object, PlanFault, PlanTile, Reader, Screen,
    index_of,
};

// Reads a threshold of a tile.
#[derive(Drop)]
struct ByteReader;

impl ItemReader for ByteReader {
    type Item = u8;

    ghost reads = { λ _ _. number 0 255 };

    fn read_item(&self, _earlier: &[u8], node: Node<'_>) -> Result<u8, PlanFault> {
        let byte = Number(0, 255).read(node)?;
        Ok(byte as u8)
    }
}

// Reads a tile. No earlier tile may have its name.
#[derive(Drop)]
struct TileReader;

impl ItemReader for TileReader {
    type Item = PlanTile;

    ghost reads = { λ _. spec.tile };

    #[tactic(auto, unfolding(crate::specs::Printing::tile))]
    fn read_item(&self, earlier: &[PlanTile], node: Node<'_>) -> Result<PlanTile, PlanFault> {
        let o = node.object(&["name", "width", "height", "at"])?;
        tile_of(&o, earlier)
    }
}

// Reads a tile from its object.
#[tactic(auto, unfolding(crate::specs::Printing::tile_in, crate::specs::Printing::bytes_of))]
fn tile_of(o: &Object<'_>, earlier: &[PlanTile]) -> Result<PlanTile, PlanFault>
    ensures { Gives (λ t. t) result (inside o.now (spec.tile_in earlier.now)) }
{
    let name = o.required("name", &NewName(earlier))?;
    let width = o.required("width", &Number(1, 64))? as u32;
    let height = o.required("height", &Number(1, 64))? as u32;
    let count = (width * height) as usize;
    let at = o.required("at", &ListOf(count, count, ByteReader))?;
    Ok(PlanTile {
        name,
        width,
        height,
        at,
    })
}

/// Returns the tiles of a plan: the value of the key `tiles` of the top object, or none where the key is
/// absent. Returns the first fault otherwise.
#[tactic(auto, unfolding(crate::specs::Printing::tiles))]
pub fn tiles_in(o: &Object<'_>) -> Result<Vec<PlanTile>, PlanFault>
    ensures { Gives (λ v. v.items) result (inside o.now (optional (codes "tiles") [] spec.tiles)) }
{
    o.optional("tiles", Vec::new(o.alloc), &ListOf(0, 16, TileReader))
}

// ---- screens

#[tactic(auto, unfolding(crate::specs::Printing::screen_named))]
fn screen_named(tiles: &[PlanTile], node: Node<'_>, s: &str) -> Result<Screen, PlanFault>
    ensures { Gives (λ s. s) result
        (at node.entry (λ path _. spec.screen_named (spec.tile_names tiles.now) path s.now)) }
{
    if s == "bayer2" {
        return Ok(Screen::Bayer(2));
    }
    if s == "bayer4" {
        return Ok(Screen::Bayer(4));
    }
    if s == "bayer8" {
        return Ok(Screen::Bayer(8));
    }
    if s == "bayer16" {
        return Ok(Screen::Bayer(16));
    }
    if s == "diffuse" {
        return Ok(Screen::Diffuse);
    }
    match own_name(s) {
        Some(name) => own_screen(tiles, node, name),
        None => Err(PlanFault::Range(node.path()?)),
    }
}

// Returns the text after `tile:`, if the text starts so.
fn own_name(s: &str) -> Option<&str>
    ensures { option_map (λ name. name.now) result
        ≡ (if starts_with nat_eq s.now (codes "tile:") then Some (drop 5 s.now) else None) }
{
    s.strip_prefix("tile:")
}

// Returns the screen by the tile with this name.
fn own_screen(tiles: &[PlanTile], node: Node<'_>, name: &str) -> Result<Screen, PlanFault>
    ensures { Gives (λ s. s) result
        (at node.entry (λ path _. spec.own_screen (spec.tile_names tiles.now) path name.now)) }
{
    match index_of(tiles, name) {
        Some(tile) => Ok(Screen::Own(tile)),
        None => Err(PlanFault::Unknown(node.path()?)),
    }
}

// Reads the screen of an ink.
#[derive(Drop)]
struct ScreenReader<'x> {
    tiles: &'x [PlanTile],
}

impl Reader for ScreenReader<'_> {
    type Out = Screen;

    ghost reads = { λ screen. spec.screen (spec.tile_names screen.tiles.now) };

    #[tactic(auto, unfolding(crate::specs::Printing::screen))]
    fn read(&self, node: Node<'_>) -> Result<Screen, PlanFault> {
        let s = node.text()?;
        screen_named(self.tiles, node, s)
    }
}

// Reads the screens of all inks.
#[derive(Drop)]
struct ScreensReader<'x> {
    spot: bool,
    tiles: &'x [PlanTile],
}

impl Reader for ScreensReader<'_> {
    type Out = [Screen; 5];

    ghost reads = { λ screens. spec.screens screens.spot screens.tiles.now };

    #[tactic(auto, unfolding(crate::specs::Printing::screens))]
    fn read(&self, node: Node<'_>) -> Result<[Screen; 5], PlanFault> {
        let o = node.ink_object(self.spot)?;
        screens_of(&o, self.tiles)
    }
}

// Reads the screens of all inks from their object.
#[tactic(auto, unfolding(crate::specs::Printing::each_ink))]
fn screens_of(o: &Object<'_>, tiles: &[PlanTile]) -> Result<[Screen; 5], PlanFault>
    ensures { Gives (λ s. s) result
        (inside o.now (spec.each_ink (Screen.Bayer 8) (spec.screen (spec.tile_names tiles.now)))) }
{
    let screen = ScreenReader { tiles };
    let c = o.optional("C", Screen::Bayer(8), &screen)?;
    let m = o.optional("M", Screen::Bayer(8), &screen)?;
    let y = o.optional("Y", Screen::Bayer(8), &screen)?;
    let k = o.optional("K", Screen::Bayer(8), &screen)?;
    let s = o.optional("S", Screen::Bayer(8), &screen)?;
    Ok([c, m, y, k, s])
}

/// Returns the screens of a plan with these tiles, one for each ink: the value of the key `screens` of the
/// top object, with the Bayer tile of side 8 where an ink or the key is absent. S may have a screen only
/// where there is a spot ink. Returns the first fault otherwise.
pub fn screens_in(o: &Object<'_>, spot: bool, tiles: &[PlanTile]) -> Result<[Screen; 5], PlanFault>
    ensures { Gives (λ s. s) result
        (inside o.now (optional (codes "screens") spec.bayer_screens (spec.screens spot tiles.now))) }
{
    o.optional(
        "screens",
        [Screen::Bayer(8); 5],
        &ScreensReader { spot, tiles },
    )
}
