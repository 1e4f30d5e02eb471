// An old job with one change at a time, and the plates that must be made and are dropped, worked out by hand.
ghost use Rattle.std.specs.Prelude.{◌≡◌, length};

use plan_json::{Plan, read_plan};
use plan_rows::RowPlan;
use pr_base::Ink;
use replate::{Inputs, Picks};
use std::process::Abort;

// Two sites. The second prints another page 3. Pair 1, pages s and p, is group 0 of both sites. Pair 2 is
// group 1 of OSLO, pages q and r, and group 2 of BERGEN, pages q and z.
const BASE: &str = "{'plan':2,'edition':'E1','dpi':1200,'page':[8,2],\
'tiles':[{'name':'t1','width':2,'height':1,'at':[7,9]}],'screens':{'K':'tile:t1'},\
'pages':[{'name':'p','inks':'K','layers':[{'kind':'contone','file':'a'}]},\
{'name':'q','inks':'CMYK','layers':[{'kind':'contone','file':'b','mask':'m'}]},\
{'name':'r','inks':'K','layers':[]},{'name':'s','inks':'K','layers':[]},\
{'name':'z','inks':'K','layers':[{'kind':'contone','file':'b','x':1}]}],\
'sections':[{'name':'A','pages':['p','q','r','s']}],\
'zones':[{'name':'N','replace':[{'section':'A','page':3,'with':'z'}]}],\
'sites':[{'name':'OSLO'},{'name':'BERGEN','zone':'N'}]}";

const TILE: &str = "'name':'t1','width':2,'height':1,'at':[7,9]}],'screens':{'K':'tile:t1'}";

const RENAMED_TILE: &str =
    "'name':'t2','width':2,'height':1,'at':[7,9]}],'screens':{'K':'tile:t2'}";

const SECTION: &str = "'name':'A','pages':['p','q','r','s']}],\
'zones':[{'name':'N','replace':[{'section':'A','page':3,'with':'z'}";

const RENAMED_SECTION: &str = "'name':'B','pages':['p','q','r','s']}],\
'zones':[{'name':'N','replace':[{'section':'B','page':3,'with':'z'}";

// Pair 1 alone, and a zone that replaces a page of BERGEN with the same page.
const ONE_PAIR: &str = "'name':'A','pages':['p','s']}],\
'zones':[{'name':'N','replace':[{'section':'A','page':1,'with':'p'}";

// The contents of the files, separated by spaces.
const FILES: &str = "abc de f";

const ALL: &str = "00K 01C 01M 01Y 01K 10K 12C 12M 12Y 12K ";

const BLACK: &str = "00K 01K 10K 12K ";

// A text of the plan and its replacement, the new files, the plates that must be made, and those that are
// dropped. A plate is the index of its site, the index of its group and its ink.
#[rattlefmt::skip]
const CHANGES: [(&str, &str, &str, &str, &str); 16] = [
    ("'edition':'E1'", "'edition':'E1'", FILES, "", ""),
    ("'K':'tile:t1'", "'K':'bayer8'", FILES, BLACK, ""),
    ("'page':[8,2]", "'page':[8,2],'curves':{'S':[[0,0],[255,9]]}", FILES, ALL, ""),
    ("'page':[8,2]", "'page':[8,2],'marks':[{'inks':'C','x':0,'y':0,'w':1,'h':1}]", FILES, ALL, ""),
    ("'edition':'E1'", "'edition':'E1'", "abd de f", "00K 10K ", ""),
    ("'edition':'E1'", "'edition':'E1'", "abc de g", "01C 01M 01Y 01K 12C 12M 12Y 12K ", ""),
    ("'at':[7,9]", "'at':[7,8]", FILES, BLACK, ""),
    ("'file':'a'", "'file':'n'", FILES, "", ""),
    ("'file':'a'", "'file':'a','crop':[0,0,1,1]", FILES, "00K 10K ", ""),
    ("'name':'OSLO'", "'name':'LUND'", FILES, "00K 01C 01M 01Y 01K ", "00K 01C 01M 01Y 01K "),
    ("'edition':'E1'", "'edition':'E2'", FILES, ALL, ALL),
    ("'with':'z'", "'with':'r'", FILES, "11C 11M 11Y 11K ", ""),
    ("'with':'z'}", "'with':'z'},{'section':'A','page':1,'with':'p'}", FILES, "", ""),
    (TILE, RENAMED_TILE, FILES, "", ""),
    (SECTION, RENAMED_SECTION, FILES, ALL, ALL),
    (SECTION, ONE_PAIR, FILES, "", "01C 01M 01Y 01K 12C 12M 12Y 12K "),
];

#[test]
fn each_change_has_its_plates(rt: HostRuntime) {
    for (n, change) in CHANGES.iter().enumerate() {
        check(&rt, n, holds(&rt, change));
    }
}

fn check(rt: &impl Abort, n: usize, holds: bool) {
    assert!(rt; holds, "change {n}");
}

// Whether a change of plan and files makes and drops exactly these plates.
fn holds<R: Abort + AllocGlobal>(rt: &R, change: &(&str, &str, &str, &str, &str)) -> bool {
    let (old, new, files, made, dropped) = *change;
    let old_plan = plan_of(rt, BASE);
    let new_plan = plan_of(rt, changed(rt, old, new).as_str());
    tells(rt, &old_plan, &new_plan, files, made, dropped)
}

// Returns the plan with one text, which must occur in it, replaced by another.
fn changed<R: Abort + AllocGlobal>(rt: &R, old: &str, new: &str) -> String {
    let (front, back) = BASE.split_once(old).expect(rt, "what is to be changed");
    format!(in rt.alloc(); "{front}{new}{back}").expect(rt, "memory")
}

// Reads the plan of a text that has apostrophes for quotes.
fn plan_of<R: Abort + AllocGlobal>(rt: &R, text: &str) -> Plan {
    let mut bytes = Vec::new(rt.alloc());
    for byte in text.as_bytes() {
        let quoted = if *byte == b'\'' { b'"' } else { *byte };
        bytes.push(quoted).expect(rt, "memory");
    }
    read_plan(rt.alloc(), bytes.as_slice()).expect(rt, "no plan")
}

fn whole<R: Abort + AllocGlobal>(rt: &R, files: &str) -> Vec<Vec<u8>> {
    let mut all = Vec::new(rt.alloc());
    for file in files.split(' ') {
        let bytes = file.as_bytes().to_vec(rt.alloc()).expect(rt, "memory");
        all.push(bytes).expect(rt, "memory");
    }
    all
}

fn tells<R: Abort + AllocGlobal>(
    rt: &R,
    old_plan: &Plan,
    new_plan: &Plan,
    files: &str,
    made: &str,
    dropped: &str,
) -> bool {
    let old_files = whole(rt, FILES);
    let new_files = whole(rt, files);
    old_files.len() == old_plan.files().len()
        && new_files.len() == new_plan.files().len()
        && picks(
            rt, old_plan, &old_files, new_plan, &new_files, made, dropped,
        )
}

fn picks<R: Abort + AllocGlobal>(
    rt: &R,
    old_plan: &Plan,
    old_files: &[Vec<u8>],
    new_plan: &Plan,
    new_files: &[Vec<u8>],
    made: &str,
    dropped: &str,
) -> bool
    requires old { length old_files.now ≡ length old_plan.now.files }
    requires new { length new_files.now ≡ length new_plan.now.files }
{
    let old_rows = RowPlan::of(rt.alloc(), old_plan).expect(rt, "memory");
    let new_rows = RowPlan::of(rt.alloc(), new_plan).expect(rt, "memory");
    let before = Inputs::new(old_plan, &old_rows, old_files);
    let after = Inputs::new(new_plan, &new_rows, new_files);
    let picks = Picks::of(rt.alloc(), &before, &after).expect(rt, "memory");
    told(rt, &picks, new_plan, &new_rows).as_str() == made && left(rt, &picks).as_str() == dropped
}

// Lists the plates that must be made.
fn told<R: Abort + AllocGlobal>(rt: &R, picks: &Picks, plan: &Plan, rows: &RowPlan) -> String
    requires { length picks.now.kept ≡ length rows.now.groups }
{
    let mut text = String::new(rt.alloc());
    for site in 0..plan.sites.len() {
        for (index, group) in rows.groups().iter().enumerate() {
            if group.sites >> site & 1 == 1 {
                for ink in group.inks() {
                    if picks.made(site, index, *ink) {
                        add(rt, &mut text, site, index, *ink);
                    }
                }
            }
        }
    }
    text
}

// Lists the plates that are dropped.
fn left<R: Abort + AllocGlobal>(rt: &R, picks: &Picks) -> String {
    let mut text = String::new(rt.alloc());
    for plate in picks.dropped() {
        add(rt, &mut text, plate.site, plate.group, plate.ink);
    }
    text
}

fn add<R: Abort + AllocGlobal>(rt: &R, text: &mut String, site: usize, group: usize, ink: Ink) {
    let plate = format!(in rt.alloc(); "{site}{group}{ink:?} ").expect(rt, "memory");
    text.push_str(plate.as_str()).expect(rt, "memory");
}
