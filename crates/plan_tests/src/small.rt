// A plan 1 without optional keys in its top object: the result of reading it, and its single changes.
use crate::faults::{check_changes, quoted};
use plan_json::{Page, Plan, PlanLayer, Screen, read_plan};
use pr_base::PathText;
use std::process::Abort;

// Its files are listed once each, in the order of first mention.
const SMALL: &str = "{'plan':1,'edition':'E1','dpi':1200,'page':[8,2],\
'pages':[{'name':'w','inks':'CMYK','layers':[{'kind':'contone','file':'b','mask':'a'},\
{'kind':'line','file':'a','mask':'b'},{'kind':'line','file':'c'}]},{'name':'p','inks':'K','layers':[]}],\
'sections':[{'name':'A','pages':['p','w']}],'sites':[{'name':'OSLO'}]}";

// Changes of this plan 1, which does not know a fifth ink.
#[rattlefmt::skip]
const CHANGES: &str = " |  | ok
'page':[8,2] | 'page':[8,2],'screens':{'S':'bayer4'} | /screens/S: unknown
'page':[8,2] | 'page':[8,2],'curves':{'S':[[0,0],[255,255]]} | /curves/S: unknown
'page':[8,2] | 'page':[8,2],'marks':[{'inks':'KS','x':0,'y':0,'w':1,'h':1}] | /marks/0/inks: range
'inks':'CMYK' | 'inks':'KS' | /pages/0/inks: range
'file':'c'} | 'file':'c','ink':[0,0,0,0,255]} | /pages/0/layers/2/ink: range";

// The second layer of page w: linework in black from the second file, with the first file as its mask.
const SECOND: PlanLayer = PlanLayer {
    line: true,
    file: 1,
    x: 0,
    y: 0,
    scale: 1,
    crop: None,
    mask: Some(0),
    overprint: false,
    ink: [0, 0, 0, 255, 0],
};

#[test]
fn each_change_of_a_plan_1_has_its_fault(rt: HostRuntime) {
    check_changes(&rt, SMALL, CHANGES);
}

#[test]
fn a_small_plan_is_read(rt: HostRuntime) {
    let text = quoted(&rt, SMALL);
    let plan = read_plan(rt.alloc(), text.as_bytes()).expect(&rt, "no plan");
    assert!(rt; is_small(&rt, &plan));
}

// Returns whether a plan has the files, the default limit and screen, and the first page of the small plan.
fn is_small<R: Abort + AllocGlobal>(rt: &R, plan: &Plan) -> bool {
    joined(rt, plan.files()).as_str() == "b a c "
        && plan.limit == 1020
        && plan.screens[4] == Screen::Bayer(8)
        && is_page(&plan.pages[0])
}

// Joins names, with a space after each.
fn joined<R: Abort + AllocGlobal>(rt: &R, names: &[PathText]) -> String {
    let mut out = String::new(rt.alloc());
    for name in names {
        out.push_str(name.as_str()).expect(rt, "memory");
        out.push(' ').expect(rt, "memory");
    }
    out
}

// Returns whether a page is the one with three layers.
fn is_page(page: &Page) -> bool {
    page.colour && !page.spot && page.layers.len() == 3 && page.layers.get(1) == Some(&SECOND)
}
