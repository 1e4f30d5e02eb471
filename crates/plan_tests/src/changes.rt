// Single changes of a full sample plan 2, each with the fault that rejects it. In these texts `'` stands for
// `"`.
use crate::faults::check_changes;

const SAMPLE: &str =
    "{'plan':2,'edition':'E1','dpi':1200,'page':[8,4],'margins':[1,2,3,4],'gutter':5,'limit':300,\
'tiles':[{'name':'t1','width':2,'height':1,'at':[7,9]},{'name':'t2','width':1,'height':1,'at':[0]}],\
'screens':{'C':'bayer2','M':'diffuse','Y':'tile:t1','K':'bayer16','S':'bayer4'},\
'curves':{'C':[[0,0],[128,110],[255,255]],'K':[[0,5],[255,250]],'S':[[0,0],[255,255]]},\
'marks':[{'inks':'CMYKS','x':0,'y':0,'w':25,'h':10},{'inks':'K','x':1,'y':2,'w':3,'h':4}],\
'pages':[{'name':'w','inks':'K','layers':[]},{'name':'p','inks':'CMYKS','layers':[\
{'kind':'contone','file':'a.tif','x':1,'y':2,'scale':3,'crop':[5,6,7,8],'mask':'m/b.tif',\
'paint':'overprint','ink':[1,2,3,4,5]},\
{'kind':'line','file':'m/b.tif','mask':'c.tif'}]}],\
'sections':[{'name':'A','pages':['w','p']}],\
'zones':[{'name':'N','replace':[{'section':'A','page':2,'with':'w'},{'section':'A','page':1,'with':'p'}]}],\
'sites':[{'name':'OSLO','zone':'N'},{'name':'BERGEN'}]}";

// Each row: a text of the sample, its replacement, and the fault.
#[rattlefmt::skip]
const CHANGES: &str = " |  | ok
# the top object
'plan':2, |  | /plan: missing
'plan':2 | 'plan':'2' | /plan: kind
'plan':2 | 'plan':2.0 | /plan: kind
'plan':2 | 'plan':-0 | /plan: kind
'plan':2 | 'plan':0 | /plan: range
'plan':2 | 'plan':3 | /plan: range
'plan':2 | 'plan':18446744073709551616 | /plan: kind
'plan':2, | 'plan':2,'zz':1,'colour':1, | /colour: unknown
'plan':2, | 'aa':1, | /aa: unknown
'plan':2 | 'plan':1 | /screens/S: unknown
'edition':'E1', |  | /edition: missing
'edition':'E1' | 'edition':1 | /edition: kind
'edition':'E1' | 'edition':'' | /edition: range
'edition':'E1' | 'edition':'E 1' | /edition: range
'edition':'E1' | 'edition':'abcdefghijklmnopq' | /edition: range
'edition':'E1' | 'edition':'abc_efghijkLMN09' | ok
'dpi':1200, |  | /dpi: missing
'dpi':1200 | 'dpi':null | /dpi: kind
'dpi':1200 | 'dpi':1e2 | /dpi: kind
'dpi':1200 | 'dpi':0 | /dpi: range
'dpi':1200 | 'dpi':10001 | /dpi: range
'dpi':1200 | 'dpi':10000 | ok
'page':[8,4], |  | /page: missing
'page':[8,4] | 'page':{} | /page: kind
'page':[8,4] | 'page':[8] | /page: range
'page':[8,4] | 'page':[8,4,1] | /page: range
'page':[8,4] | 'page':[8,'4'] | /page/1: kind
'page':[8,4] | 'page':[0,4] | /page/0: range
'page':[8,4] | 'page':[65536,4] | /page/0: range
'page':[8,4] | 'page':[32763,4] | ok
'page':[8,4] | 'page':[32764,4] | /page: range
'page':[8,4] | 'page':[8,65530] | /page: range
[8,4],'margins':[1,2,3,4],'gutter':5,'limit':300 | [8,65530],'margins':[1,2,3,4],'gutter':5,\
'limit':-1 | /page: range
[8,4],'margins':[1,2,3,4],'gutter':5 | [8,65530],'margins':[1,2,3,4],'gutter':-1 | /gutter: kind
'margins':[1,2,3,4] | 'margins':1 | /margins: kind
'margins':[1,2,3,4] | 'margins':[1,2,3] | /margins: range
'margins':[1,2,3,4] | 'margins':[1,2,3,4,5] | /margins: range
'margins':[1,2,3,4] | 'margins':[1,2,3,false] | /margins/3: kind
'margins':[1,2,3,4] | 'margins':[65536,2,3,4] | /margins/0: range
'gutter':5 | 'gutter':[] | /gutter: kind
'gutter':5 | 'gutter':65536 | /gutter: range
'limit':300 | 'limit':'300' | /limit: kind
'limit':300 | 'limit':1021 | /limit: range
'limit':300, |  | ok
# tiles
'screens':{ | 'tiles':0,'screens':{ | /tiles: kind
'tiles':[ | 'tiles':{},'zz':[ | /zz: unknown
'tiles':[ | 'tiles':[0, | /tiles/0: kind
'tiles':[ | 'tiles':[0,0,0,0,0,0,0,0,0,0,0,0,0,0,0, | /tiles: range
{'name':'t1', | {'name':'t1','a':1, | /tiles/0/a: unknown
'name':'t1', |  | /tiles/0/name: missing
'name':'t1' | 'name':1 | /tiles/0/name: kind
'name':'t1' | 'name':'t-1' | /tiles/0/name: range
'name':'t2' | 'name':'t1' | /tiles/1/name: repeat
'name':'t2','width':1 | 'name':'t1','width':0 | /tiles/1/name: repeat
'width':2, |  | /tiles/0/width: missing
'width':2 | 'width':true | /tiles/0/width: kind
'width':2 | 'width':0 | /tiles/0/width: range
'width':2 | 'width':65 | /tiles/0/width: range
'height':1, |  | /tiles/0/height: missing
'height':1 | 'height':{} | /tiles/0/height: kind
'height':1 | 'height':0 | /tiles/0/height: range
'height':1 | 'height':65 | /tiles/0/height: range
,'at':[7,9] |  | /tiles/0/at: missing
'at':[7,9] | 'at':79 | /tiles/0/at: kind
'at':[7,9] | 'at':[7] | /tiles/0/at: range
'at':[7,9] | 'at':['x'] | /tiles/0/at: range
'at':[7,9] | 'at':[7,9,1] | /tiles/0/at: range
'at':[7,9] | 'at':[7,'9'] | /tiles/0/at/1: kind
'at':[7,9] | 'at':[7,256] | /tiles/0/at/1: range
# screens
'curves':{ | 'screens':[],'curves':{ | /screens: kind
'screens':{ | 'screens':[],'zz':{ | /zz: unknown
'C':'bayer2' | 'c':'bayer2' | /screens/c: unknown
'C':'bayer2' | 'C':2 | /screens/C: kind
'C':'bayer2' | 'C':'bayer3' | /screens/C: range
'C':'bayer2' | 'C':'tile' | /screens/C: range
'Y':'tile:t1' | 'Y':'tile:t3' | /screens/Y: unknown
'Y':'tile:t1' | 'Y':'tile:' | /screens/Y: unknown
'Y':'tile:t1' | 'Y':'tile:t 1' | /screens/Y: unknown
'M':'diffuse', |  | ok
# curves
'marks':[ | 'curves':[],'marks':[ | /curves: kind
'C':[[0,0] | 'Z':[[0,0] | /curves/Z: unknown
[[0,5],[255,250]] | 5 | /curves/K: kind
[[0,5],[255,250]] | [[0,5]] | /curves/K: range
[[0,5],[255,250]] | [0,[255,250]] | /curves/K/0: kind
[[0,5],[255,250]] | [[0,5,6],[255,250]] | /curves/K/0: range
[[0,5],[255,250]] | [[0,5],['255',250]] | /curves/K/1/0: kind
[[0,5],[255,250]] | [[0,5],[255,256]] | /curves/K/1/1: range
[[0,5],[255,250]] | [[1,5],[255,250]] | /curves/K: range
[[0,5],[255,250]] | [[0,5],[254,250]] | /curves/K: range
[[0,5],[255,250]] | [[0,5],[9,1],[9,2],[255,250]] | /curves/K: range
# marks
'pages':[{'name':'w' | 'marks':{},'pages':[{'name':'w' | /marks: kind
'pages':[{'name':'w' | 'marks':[0,0,0,0,0,0,0,0,0,0,0,0,0,0,0,0,0,0,0,0,0,0,0,0,0,0,0,0,0,0,0,0,0,\
0,0,0,0,0,0,0,0,0,0,0,0,0,0,0,0,0,0,0,0,0,0,0,0,0,0,0,0,0,0,0,0],'pages':[{'name':'w' | /marks: range
'marks':[ | 'marks':[0, | /marks/0: kind
'inks':'CMYKS','x':0 | 'inks':'CMYKS','a':0,'x':0 | /marks/0/a: unknown
'inks':'CMYKS','x':0 | 'x':0 | /marks/0/inks: missing
'inks':'CMYKS','x':0 | 'inks':1,'x':0 | /marks/0/inks: kind
'inks':'CMYKS','x':0 | 'inks':'','x':0 | /marks/0/inks: range
'inks':'CMYKS','x':0 | 'inks':'KC','x':0 | /marks/0/inks: range
'inks':'CMYKS','x':0 | 'inks':'CC','x':0 | /marks/0/inks: range
'inks':'CMYKS','x':0 | 'inks':'CX','x':0 | /marks/0/inks: range
'x':0, |  | /marks/0/x: missing
'x':0 | 'x':'0' | /marks/0/x: kind
'x':0 | 'x':65536 | /marks/0/x: range
'x':0 | 'x':1 | /marks/0: range
'y':0, |  | /marks/0/y: missing
'y':0 | 'y':1 | /marks/0: range
'y':0 | 'y':[] | /marks/0/y: kind
'y':0 | 'y':65536 | /marks/0/y: range
'w':25, |  | /marks/0/w: missing
'w':25 | 'w':0 | /marks/0/w: range
'w':25 | 'w':'25' | /marks/0/w: kind
'w':25 | 'w':65536 | /marks/0/w: range
'w':25 | 'w':26 | /marks/0: range
,'h':10 |  | /marks/0/h: missing
'h':10 | 'h':0 | /marks/0/h: range
'h':10 | 'h':{} | /marks/0/h: kind
'h':10 | 'h':65536 | /marks/0/h: range
'h':10 | 'h':11 | /marks/0: range
# pages
'sections':[ | 'pages':{},'sections':[ | /pages: kind
'sections':[ | 'pages':[],'sections':[ | /pages: range
'pages':[{'name':'w','inks':'K','layers':[]}, | 'pages':[0, | /pages/0: kind
{'name':'w','inks':'K','layers':[]} | {'name':'w','inks':'K','layers':[],'a':1} | /pages/0/a: unknown
{'name':'w', | { | /pages/0/name: missing
{'name':'w', | {'name':[], | /pages/0/name: kind
{'name':'w', | {'name':'w.', | /pages/0/name: range
{'name':'w', | {'name':'p', | /pages/1/name: repeat
'inks':'K','layers':[] | 'layers':[] | /pages/0/inks: missing
'inks':'K','layers':[] | 'inks':0,'layers':[] | /pages/0/inks: kind
'inks':'K','layers':[] | 'inks':'CMY','layers':[] | /pages/0/inks: range
'inks':'K','layers':[] | 'inks':'KS','layers':[] | ok
,'layers':[] |  | /pages/0/layers: missing
'layers':[] | 'layers':{} | /pages/0/layers: kind
'layers':[] | 'layers':[0,0,0,0,0,0,0,0,0,0,0,0,0,0,0,0,0,0,0,0,0,0,0,0,0,0,0,0,0,0,0,0,0] | \
/pages/0/layers: range
'layers':[] | 'layers':[0] | /pages/0/layers/0: kind
# layers
'kind':'contone', |  | /pages/1/layers/0/kind: missing
'kind':'contone' | 'kind':0 | /pages/1/layers/0/kind: kind
'kind':'contone' | 'kind':'Line' | /pages/1/layers/0/kind: range
'kind':'contone' | 'kind':'contone','a':1 | /pages/1/layers/0/a: unknown
'file':'a.tif', |  | /pages/1/layers/0/file: missing
'file':'a.tif' | 'file':7 | /pages/1/layers/0/file: kind
'file':'a.tif' | 'file':'' | /pages/1/layers/0/file: range
'file':'a.tif' | 'file':'.' | /pages/1/layers/0/file: range
'file':'a.tif' | 'file':'a/../b' | /pages/1/layers/0/file: range
'file':'a.tif' | 'file':'a//b' | /pages/1/layers/0/file: range
'file':'a.tif' | 'file':'/a' | /pages/1/layers/0/file: range
'file':'a.tif' | 'file':'a/' | /pages/1/layers/0/file: range
'file':'a.tif' | 'file':'a\\u001f' | /pages/1/layers/0/file: range
'file':'a.tif' | 'file':'.../..a' | ok
'x':1,'y':2,'scale' | 'x':null,'y':2,'scale' | /pages/1/layers/0/x: kind
'x':1,'y':2,'scale' | 'x':65536,'y':2,'scale' | /pages/1/layers/0/x: range
'x':1,'y':2,'scale' | 'x':1,'y':'2','scale' | /pages/1/layers/0/y: kind
'x':1,'y':2,'scale' | 'x':1,'y':65536,'scale' | /pages/1/layers/0/y: range
'scale':3 | 'scale':'3' | /pages/1/layers/0/scale: kind
'scale':3 | 'scale':0 | /pages/1/layers/0/scale: range
'scale':3 | 'scale':65 | /pages/1/layers/0/scale: range
[5,6,7,8] | {} | /pages/1/layers/0/crop: kind
[5,6,7,8] | [5,6,7] | /pages/1/layers/0/crop: range
[5,6,7,8] | [5,6,7,'8'] | /pages/1/layers/0/crop/3: kind
[5,6,7,8] | [5,6,0,8] | /pages/1/layers/0/crop/2: range
[5,6,7,8] | [0,0,7,65536] | /pages/1/layers/0/crop/3: range
'mask':'m/b.tif' | 'mask':null | /pages/1/layers/0/mask: kind
'mask':'m/b.tif' | 'mask':'m/./b.tif' | /pages/1/layers/0/mask: range
'paint':'overprint' | 'paint':true | /pages/1/layers/0/paint: kind
'paint':'overprint' | 'paint':'over' | /pages/1/layers/0/paint: range
[1,2,3,4,5] | 1 | /pages/1/layers/0/ink: kind
[1,2,3,4,5] | [1,2,3] | /pages/1/layers/0/ink: range
[1,2,3,4,5] | [1,2,3,4,5,6] | /pages/1/layers/0/ink: range
[1,2,3,4,5] | [1,2,3,'4',5] | /pages/1/layers/0/ink/3: kind
[1,2,3,4,5] | [1,2,3,4,256] | /pages/1/layers/0/ink/4: range
[1,2,3,4,5] | [1,2,3,4] | ok
# sections
'sections':[{'name':'A','pages':['w','p']}], |  | /sections: missing
[{'name':'A','pages':['w','p']}] | 0 | /sections: kind
[{'name':'A','pages':['w','p']}] | [] | /sections: range
[{'name':'A','pages':['w','p']}] | [0,0,0,0,0,0,0,0,0] | /sections: range
[{'name':'A','pages':['w','p']}] | [[]] | /sections/0: kind
{'name':'A','pages' | {'name':'A','a':1,'pages' | /sections/0/a: unknown
{'name':'A','pages' | {'pages' | /sections/0/name: missing
{'name':'A','pages' | {'name':1,'pages' | /sections/0/name: kind
{'name':'A','pages' | {'name':'','pages' | /sections/0/name: range
{'name':'A','pages':['w','p']} | {'name':'A','pages':['w','p']},{'name':'A','pages':[]} | \
/sections/1/name: repeat
,'pages':['w','p'] |  | /sections/0/pages: missing
['w','p'] | 'w' | /sections/0/pages: kind
['w','p'] | ['w'] | /sections/0/pages: range
['w','p'] | ['w','p','q'] | /sections/0/pages: range
['w','p'] | ['w',1] | /sections/0/pages/1: kind
['w','p'] | ['w','p!'] | /sections/0/pages/1: range
['w','p'] | ['w','q'] | /sections/0/pages/1: unknown
# zones
'sites':[ | 'zones':{},'sites':[ | /zones: kind
'sites':[ | 'zones':[0,0,0,0,0,0,0,0,0,0,0,0,0,0,0,0,0],'sites':[ | /zones: range
'zones':[ | 'zones':[0, | /zones/0: kind
{'name':'N','replace' | {'name':'N','a':1,'replace' | /zones/0/a: unknown
{'name':'N','replace' | {'replace' | /zones/0/name: missing
{'name':'N','replace' | {'name':0,'replace' | /zones/0/name: kind
{'name':'N','replace' | {'name':'N!','replace' | /zones/0/name: range
'zones':[ | 'zones':[{'name':'N','replace':[]}, | /zones/1/name: repeat
'zones':[ | 'zones':[{'name':'Z'}, | /zones/0/replace: missing
'zones':[ | 'zones':[{'name':'Z','replace':0}, | /zones/0/replace: kind
'replace':[ | 'replace':[0, | /zones/0/replace/0: kind
{'section':'A','page':2 | {'section':'A','a':1,'page':2 | /zones/0/replace/0/a: unknown
{'section':'A','page':2 | {'page':2 | /zones/0/replace/0/section: missing
{'section':'A','page':2 | {'section':0,'page':2 | /zones/0/replace/0/section: kind
{'section':'A','page':2 | {'section':'A B','page':2 | /zones/0/replace/0/section: range
{'section':'A','page':2 | {'section':'B','page':2 | /zones/0/replace/0/section: unknown
{'section':'A','page':2 | {'section':'A' | /zones/0/replace/0/page: missing
{'section':'A','page':2 | {'section':'A','page':'2' | /zones/0/replace/0/page: kind
{'section':'A','page':2 | {'section':'A','page':0 | /zones/0/replace/0/page: range
{'section':'A','page':2 | {'section':'A','page':3 | /zones/0/replace/0/page: range
{'section':'A','page':2 | {'section':'A','page':1 | /zones/0/replace/1/page: repeat
'page':1,'with':'p' | 'page':2,'with':'q' | /zones/0/replace/1/page: repeat
'page':1,'with':'p' | 'page':1,'with':'q' | /zones/0/replace/1/with: unknown
'page':1,'with':'p' | 'page':1,'with':1 | /zones/0/replace/1/with: kind
'page':1,'with':'p' | 'page':1,'with':'p.' | /zones/0/replace/1/with: range
'page':1,'with':'p' | 'page':1 | /zones/0/replace/1/with: missing
# sites
{'name':'BERGEN'}] | {'name':'BERGEN'}],'sites':{} | /sites: kind
{'name':'BERGEN'}] | {'name':'BERGEN'}],'sites':[] | /sites: range
{'name':'BERGEN'}] | {'name':'BERGEN'}],'sites':[0,0,0,0,0,0,0,0,0,0,0,0,0,0,0,0,0] | /sites: range
{'name':'BERGEN'} | 0 | /sites/1: kind
{'name':'OSLO', | { | /sites/0/name: missing
'name':'BERGEN' | 'name':null | /sites/1/name: kind
'name':'BERGEN' | 'name':'BER GEN' | /sites/1/name: range
'name':'BERGEN' | 'name':'OSLO' | /sites/1/name: repeat
'zone':'N' | 'zone':'M' | /sites/0/zone: unknown
'zone':'N' | 'zone':0 | /sites/0/zone: kind
'zone':'N' | 'zone':'' | /sites/0/zone: range
'zone':'N' | 'Zone':'N' | /sites/0/Zone: unknown";

#[test]
fn each_change_has_its_fault(rt: HostRuntime) {
    check_changes(&rt, SAMPLE, CHANGES);
}
