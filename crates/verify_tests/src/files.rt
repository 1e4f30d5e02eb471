// Plans of small pages and their plates, as given by the definition of a plate's file.
use test_room::{Plate, Sides, SmallPlan, TWO_PAGES};

/// The path of the only plate of `TWO_PAGES` and `ONE_ROW`.
pub const PATH: &str = "OUT/OSLO/E1-A-001-K.tif";

/// The plate of `TWO_PAGES`: 16 by 2 pixels. Row 0 is at offset 8 and row 1 at offset 11. They end at 14,
/// where the directory begins. The plate has 14 + 166 bytes.
pub const TWO_PAGES_PLATE: Plate<'static> = Plate {
    path: PATH,
    sides: Sides::SixteenByTwo,
    rows: &[1, 0xAB, 0, 1, 0x13, 0],
};

/// The same pages with one row.
pub const ONE_ROW: SmallPlan<'static> = SmallPlan {
    height: "1",
    ..TWO_PAGES
};

/// Its plate: 16 by 1 pixels. The row is packed to the bytes 8 to 10. Byte 11 is a pad byte, and the
/// directory begins at 12.
pub const ONE_ROW_PLATE: Plate<'static> = Plate {
    path: PATH,
    sides: Sides::SixteenByOne,
    rows: &[1, 0xAB, 0, 0],
};

/// Two empty pages in four inks, for two sites.
pub const FOUR_INKS: &str = r#"{"plan":1,"edition":"E1","dpi":1200,"page":[8,2],
"pages":[{"name":"w","inks":"CMYK","layers":[]}],
"sections":[{"name":"A","pages":["w","w"]}],"sites":[{"name":"OSLO"},{"name":"BERGEN"}]}"#;

/// The plate of an empty pair, at no path.
pub const EMPTY_PLATE: Plate<'static> = Plate {
    path: "",
    sides: Sides::SixteenByTwo,
    rows: &[1, 0, 0, 1, 0, 0],
};

/// The plates of `ZONED`: two pairs at two sites, which share the first pair.
pub const GROUPS: [Plate<'static>; 4] = [
    Plate {
        path: "OUT/OSLO/E1-A-001-K.tif",
        ..EMPTY_PLATE
    },
    Plate {
        path: "OUT/BERGEN/E1-A-001-K.tif",
        ..EMPTY_PLATE
    },
    Plate {
        path: "OUT/OSLO/E1-A-002-K.tif",
        ..EMPTY_PLATE
    },
    Plate {
        path: "OUT/BERGEN/E1-A-002-K.tif",
        sides: Sides::SixteenByTwo,
        rows: &[1, 0, 0xAB, 1, 0, 0x13],
    },
];
