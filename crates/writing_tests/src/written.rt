//! What is written, and what is written of what is read again.

use project_json::read_project;
use project_model::check;
use project_write::write_project;
use reading_tests::effect_set;
use std::alloc::Global;
use std::process::Abort;
use std::test::Fail;

/// One composition of two pixels, one frame of 1/24 s, with one solid.
const TWO_PIXELS: &str =
    "{\"version\":1,\"depth\":8,\"root\":0,\"comps\":[{\"width\":2,\"height\":1,\"frame\":[1,24],\"frames\":1,\"layers\":[{\"source\":{\"solid\":[2,1,255,10,20,30]}}]}]}";

/// The same, with all names, in their order.
const TWO_PIXELS_WRITTEN: &str =
    "{\"clips\":[],\"comps\":[{\"frame\":[1,24],\"frames\":1,\"height\":1,\"layers\":[{\"effects\":[],\"in\":[0,1],\"matte\":\"None\",\"mode\":\"Normal\",\"opacity\":[[10000,[0,1],\"hold\"]],\"source\":{\"solid\":[2,1,255,10,20,30]},\"start\":[0,1],\"x\":[[0,[0,1],\"hold\"]],\"y\":[[0,[0,1],\"hold\"]]}],\"width\":2}],\"depth\":8,\"root\":0,\"version\":1}";

/// Two clips and two compositions, of which the second nests the first: keyframes of the three kinds, times below zero, a layer with
/// an end, a matte, and four effects, with a layer parameter and with sequence data.
const FULL: &str =
    "{\"version\":1,\"depth\":16,\"root\":1,\"clips\":[{\"name\":\"a.afr\",\"width\":3,\"height\":2,\"depth\":8,\"frame\":[1,25],\"frames\":2},{\"name\":\"B_-9\",\"width\":5,\"height\":4,\"depth\":16,\"frame\":[1001,30000],\"frames\":7}],\"comps\":[{\"width\":2,\"height\":1,\"frame\":[1,24],\"frames\":4,\"layers\":[{\"source\":{\"clip\":1},\"mode\":\"Screen\"}]},{\"width\":6,\"height\":3,\"frame\":[2,48],\"frames\":8,\"layers\":[{\"source\":{\"comp\":0},\"start\":[2,24],\"in\":[1,24],\"out\":[7,24],\"mode\":\"ColorDodge\",\"opacity\":5000,\"x\":[[-3,[0,1],\"hold\"],[4,[1,12],\"linear\"],[5,[3,24],\"ease\"]],\"y\":-2,\"effects\":[{\"effect\":\"Offset\",\"params\":[3,[[-4,[0,1],\"linear\"],[5,[1,12],\"ease\"]]]},{\"effect\":\"Displace\",\"params\":[1,2],\"layers\":[1]},{\"effect\":\"Palette\",\"sequence\":\"000000FFffff\"}]},{\"source\":{\"clip\":0},\"matte\":\"LumaInverted\",\"start\":[-1,24]},{\"source\":{\"solid\":[7,1,32768,8,7,6]},\"effects\":[{\"effect\":\"Same\"}]}]}]}";

/// The same, with all names, in their order.
const FULL_WRITTEN: &str =
    "{\"clips\":[{\"depth\":8,\"frame\":[1,25],\"frames\":2,\"height\":2,\"name\":\"a.afr\",\"width\":3},{\"depth\":16,\"frame\":[1001,30000],\"frames\":7,\"height\":4,\"name\":\"B_-9\",\"width\":5}],\"comps\":[{\"frame\":[1,24],\"frames\":4,\"height\":1,\"layers\":[{\"effects\":[],\"in\":[0,1],\"matte\":\"None\",\"mode\":\"Screen\",\"opacity\":[[10000,[0,1],\"hold\"]],\"source\":{\"clip\":1},\"start\":[0,1],\"x\":[[0,[0,1],\"hold\"]],\"y\":[[0,[0,1],\"hold\"]]}],\"width\":2},{\"frame\":[2,48],\"frames\":8,\"height\":3,\"layers\":[{\"effects\":[{\"effect\":\"Offset\",\"layers\":[],\"params\":[[[3,[0,1],\"hold\"]],[[-4,[0,1],\"linear\"],[5,[1,12],\"ease\"]]],\"sequence\":\"\"},{\"effect\":\"Displace\",\"layers\":[1],\"params\":[[[1,[0,1],\"hold\"]],[[2,[0,1],\"hold\"]]],\"sequence\":\"\"},{\"effect\":\"Palette\",\"layers\":[],\"params\":[],\"sequence\":\"000000ffffff\"}],\"in\":[1,24],\"matte\":\"None\",\"mode\":\"ColorDodge\",\"opacity\":[[5000,[0,1],\"hold\"]],\"out\":[7,24],\"source\":{\"comp\":0},\"start\":[2,24],\"x\":[[-3,[0,1],\"hold\"],[4,[1,12],\"linear\"],[5,[3,24],\"ease\"]],\"y\":[[-2,[0,1],\"hold\"]]},{\"effects\":[],\"in\":[0,1],\"matte\":\"LumaInverted\",\"mode\":\"Normal\",\"opacity\":[[10000,[0,1],\"hold\"]],\"source\":{\"clip\":0},\"start\":[-1,24],\"x\":[[0,[0,1],\"hold\"]],\"y\":[[0,[0,1],\"hold\"]]},{\"effects\":[{\"effect\":\"Same\",\"layers\":[],\"params\":[],\"sequence\":\"\"}],\"in\":[0,1],\"matte\":\"None\",\"mode\":\"Normal\",\"opacity\":[[10000,[0,1],\"hold\"]],\"source\":{\"solid\":[7,1,32768,8,7,6]},\"start\":[0,1],\"x\":[[0,[0,1],\"hold\"]],\"y\":[[0,[0,1],\"hold\"]]}],\"width\":6}],\"depth\":16,\"root\":1,\"version\":1}";

// What is written of the project that the text is read as.
fn written(alloc: Global, text: &str) -> Result<Vec<u8>, Fail> {
    let set = effect_set(alloc)?;
    let schemas = set.as_slice();
    let project = read_project(alloc, text.as_bytes(), schemas)?;
    check(alloc, &project, schemas)?;
    Ok(write_project(alloc, &project, schemas)?)
}

// The text is written as `want`, and that again as itself.
fn is_written(rt: &impl Abort, alloc: Global, text: &str, want: &str) -> Result<(), Fail> {
    let once = written(alloc, text)?;
    assert!(rt; once.as_slice() == want.as_bytes());
    let twice = written(alloc, want)?;
    assert!(rt; twice.as_slice() == want.as_bytes());
    Ok(())
}

#[test]
fn two_pixels_are_written(rt: HostRuntime) -> Result<(), Fail> {
    is_written(&rt, rt.alloc(), TWO_PIXELS, TWO_PIXELS_WRITTEN)
}

#[test]
fn every_part_is_written(rt: HostRuntime) -> Result<(), Fail> {
    is_written(&rt, rt.alloc(), FULL, FULL_WRITTEN)
}
