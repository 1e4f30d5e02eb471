// Plans of small pages.
use pr_base::NoMemory;
use std::alloc::Global;

/// A plan of pages 8 pixels wide: w, which is empty and in black, and p, which has the image a.tif at scale
/// 2.
#[derive(Clone, Copy)]
pub struct SmallPlan<'a> {
    pub edition: &'a str,
    /// The height of a page in pixels.
    pub height: &'a str,
    /// The screen of black.
    pub screen: &'a str,
    /// The inks of p.
    pub inks: &'a str,
    /// The pages of the only section, A.
    pub pages: &'a str,
    /// The key of zones with a comma after it, or nothing.
    pub zones: &'a str,
    pub sites: &'a str,
}

/// Two pages of 8 by 2 pixels, the second with the image, for one site. The pair has the second page on the
/// left and the first on the right.
pub const TWO_PAGES: SmallPlan<'static> = SmallPlan {
    edition: "E1",
    height: "2",
    screen: "bayer4",
    inks: "K",
    pages: r#""w","p""#,
    zones: "",
    sites: r#"{"name":"OSLO"}"#,
};

/// Four pages for two sites. The image is page 3, the right page of the second pair.
pub const FOUR_PAGES: SmallPlan<'static> = SmallPlan {
    pages: r#""w","w","p","w""#,
    sites: r#"{"name":"OSLO"},{"name":"BERGEN"}"#,
    ..TWO_PAGES
};

/// Four empty pages for two sites. BERGEN has the image on page 3, so each site has a second pair of its own.
pub const ZONED: SmallPlan<'static> = SmallPlan {
    pages: r#""w","w","w","w""#,
    zones: r#""zones":[{"name":"Z","replace":[{"section":"A","page":3,"with":"p"}]}],"#,
    sites: r#"{"name":"OSLO"},{"name":"BERGEN","zone":"Z"}"#,
    ..TWO_PAGES
};

/// Returns the text of a plan.
pub fn plan_text(alloc: Global, plan: &SmallPlan<'_>) -> Result<String, NoMemory> {
    let SmallPlan {
        edition,
        height,
        screen,
        inks,
        pages,
        zones,
        sites,
    } = *plan;
    Ok(format!(in alloc;
        r#"{{"plan":1,"edition":"{edition}","dpi":1200,"page":[8,{height}],"screens":{{"K":"{screen}"}},
"pages":[{{"name":"w","inks":"K","layers":[]}},
{{"name":"p","inks":"{inks}","layers":[{{"kind":"contone","file":"a.tif","scale":2}}]}}],
"sections":[{{"name":"A","pages":[{pages}]}}],
{zones}"sites":[{sites}]}}"#
    )?)
}
