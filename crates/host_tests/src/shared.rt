//! What frames share: planes at other ticks, and analyses. Each pixel is worked by hand.
ghost use Rattle.std.specs.Prelude.{◌≡◌, ◌<◌, ◌≤◌, ◌++◌, ◌∷◌, [], codes, IfOk, OnOk};
ghost use Rattle.project_model.specs.Plain.{plain_of};
ghost use Rattle.project_model.specs.Uses.{AreUses};
ghost use Rattle.compute_cache.specs.Passes.{turns};
ghost use Rattle.compute_cache.specs.Suite.{IsAsBefore, IsOf, job_of};
ghost use Rattle.fx_stock.specs.Stock.{stock_class_names, stock_schemas};
ghost use Rattle.scene_meaning.specs.Output.{frame_count};

use crate::area::Counting;
use crate::clips::run_with;
use crate::runs::words_of;
use compute_cache::{Cache, Classes, Pass};
use effect_api::{Effect, set_is_lawful};
use frame_draw::draw_frame;
use frame_file::{into_frame_bytes, load_clips};
use host_io::{Memory, NeverClips, NeverSink, NeverSource, NoGate, Status};
use host_run::run;
use project_json::read_project;
use project_model::check;
use scene_meaning::{Scene, SceneJob, comp_at};
use std::alloc::Global;
use std::collections::BTreeMap;
use std::process::Abort;
use std::sync::Wait;
use std::sync::atomic::Ordering;
use std::test::Fail;
use std::thread::Threads;

/// A point that is seen from the third of four frames on, and echoes of it at half their strength.
const ECHOES: &str =
    "{\"version\":1,\"depth\":8,\"root\":1,\"comps\":[{\"width\":1,\"height\":1,\"frame\":[1,24],\"frames\":4,\"layers\":[{\"source\":{\"solid\":[1,1,100,100,0,0]}}]},{\"width\":1,\"height\":1,\"frame\":[1,24],\"frames\":4,\"layers\":[{\"source\":{\"comp\":0},\"start\":[2,24],\"effects\":[{\"effect\":\"Echo\",\"params\":[3,1,5000]}]}]}]}";

/// A dark and a light point.
const TWO_GREYS: &str =
    "{\"width\":2,\"height\":1,\"frame\":[1,24],\"frames\":1,\"layers\":[{\"source\":{\"solid\":[1,1,255,50,50,50]}},{\"source\":{\"solid\":[1,1,255,150,150,150]},\"x\":1}]}";

/// Eight frames that show the levelled picture of every fourth one.
const STEPS: &str =
    "{\"version\":1,\"depth\":8,\"root\":0,\"comps\":[{\"width\":1,\"height\":1,\"frame\":[1,24],\"frames\":8,\"layers\":[{\"source\":{\"solid\":[1,1,255,10,20,30]},\"effects\":[{\"effect\":\"AutoLevels\",\"params\":[0]},{\"effect\":\"PosterizeTime\",\"params\":[4]}]}]}]}";

/// What a run writes behind the header.
fn pixels_of(
    rt: &(impl Threads + Wait + Sync),
    alloc: Global,
    text: &str,
) -> Result<Vec<u8>, Fail> {
    let ran = run_with(rt, alloc, "", text, BTreeMap::new(alloc), &[])?;
    if ran.status != Status::Ok {
        return Err("a run that ends well")?;
    }
    Ok(ran.pixels)
}

#[test]
fn echoes_are_of_earlier_frames(rt: HostRuntime) -> Result<(), Fail> {
    assert_eq!(rt;
        pixels_of(&rt, rt.alloc(), ECHOES)?.as_slice(),
        [0, 0, 0, 0, 0, 0, 0, 0, 100, 100, 0, 0, 130, 130, 0, 0].as_slice()
    );
    Ok(())
}

/// The two points behind an effect.
fn greys_behind(alloc: Global, effect: &str) -> Result<String, Fail> {
    Ok(format!(in alloc;
        "{{\"version\":1,\"depth\":8,\"root\":1,\"comps\":[{TWO_GREYS},{{\"width\":2,\"height\":1,\"frame\":[1,24],\"frames\":1,\"layers\":[{{\"source\":{{\"comp\":0}},\"effects\":[{effect}]}}]}}]}}"
    )?)
}

/// They are seen so, also where the cache keeps nothing.
fn greys_are(
    rt: &(impl Abort + Threads + Wait + Sync),
    alloc: Global,
    effect: &str,
    picture: &[u8],
) -> Result<(), Fail> {
    let text = greys_behind(alloc, effect)?;
    assert_eq!(rt;
        pixels_of(rt, alloc, text.as_str())?.as_slice(),
        picture,
        "{effect}"
    );
    let drawn = frames_within(rt, alloc, &Counting::new(0), text.as_str(), 0)?;
    assert_eq!(rt; drawn.as_slice(), picture, "{effect}");
    Ok(())
}

#[test]
fn levels_are_of_the_whole_input(rt: HostRuntime) -> Result<(), Fail> {
    let alloc = rt.alloc();
    greys_are(
        &rt,
        alloc,
        "{\"effect\":\"AutoLevels\",\"params\":[0]}",
        &[255, 0, 0, 0, 255, 255, 255, 255],
    )?;
    greys_are(
        &rt,
        alloc,
        "{\"effect\":\"Equalize\"}",
        &[255, 127, 127, 127, 255, 255, 255, 255],
    )
}

/// Adds a class.
fn register(alloc: Global, classes: &mut Classes, name: &str) -> Result<(), Fail>
    ensures { OnOk result (classes.new ≡ classes.old ++ name.now ∷ []) }
{
    match classes.register(alloc, name) {
        Ok(_) => Ok(()),
        Err(_) => Err("a class")?,
    }
}

/// The classes of the stock's cache.
fn stock_classes(alloc: Global) -> Result<Classes, Fail>
    ensures { IfOk result (λ classes. classes ≡ codes "plane" ∷ stock_class_names) }
{
    let mut classes = Classes::new(alloc);
    register(alloc, &mut classes, "plane")?;
    register(alloc, &mut classes, "histogram")?;
    register(alloc, &mut classes, "light")?;
    Ok(classes)
}

/// The scene of a project of depth 8 without clips, whose effects are of the stock.
fn scene_of(alloc: Global, effects: &Counting, text: &str) -> Result<Scene, Fail>
    ensures uses { IfOk result (λ scene. AreUses stock_schemas scene.project) }
    ensures depth { IfOk result (λ scene. scene.project.depth ≡ 8) }
{
    set_is_lawful::<Counting>();
    let schemas = effects.schemas(alloc)?;
    let Ok(project) = read_project(alloc, text.as_bytes(), &schemas) else {
        return Err("a project")?;
    };
    let Ok(ranks) = check(alloc, &project, &schemas) else {
        return Err("a project that keeps the rules")?;
    };
    if project.depth != 8 {
        return Err("a project of depth 8")?;
    }
    let mut store = NeverClips::new(BTreeMap::new(alloc));
    let Ok(clips) = load_clips(alloc, &mut store, project.clips.as_slice()) else {
        return Err("clips")?;
    };
    Ok(Scene::new(project, clips, ranks)?)
}

/// The frame's bytes.
fn frame_of<'a>(
    rt: &impl Wait,
    alloc: Global,
    scene: &Scene,
    effects: &Counting,
    cache: &Cache<SceneJob<'a, Counting, 255>>,
    pass: &mut Pass<SceneJob<'a, Counting, 255>>,
    frame: u32,
) -> Result<Vec<u8>, Memory>
    requires uses { AreUses stock_schemas scene.now.project }
    requires depth { scene.now.project.depth ≡ 8 }
    requires frame { frame < frame_count (plain_of scene.now.project) }
    requires job { (job_of cache.now).scene.now ≡ scene.now }
    requires classes { cache.now.classes ≡ codes "plane" ∷ stock_class_names }
    requires own { IsOf cache.now pass.old }
    requires no_turn { turns pass.old ≡ [] }
    ensures pass { IsAsBefore pass.old pass.new }
{
    let picture = draw_frame(rt, alloc, scene, effects, cache, pass, frame)?;
    Ok(into_frame_bytes(picture))
}

/// The bytes of so many frames, from the first on.
fn frames_of<'a>(
    rt: &impl Wait,
    alloc: Global,
    scene: &Scene,
    effects: &Counting,
    cache: &Cache<SceneJob<'a, Counting, 255>>,
    pass: &mut Pass<SceneJob<'a, Counting, 255>>,
    frames: u32,
) -> Result<Vec<u8>, Memory>
    requires uses { AreUses stock_schemas scene.now.project }
    requires depth { scene.now.project.depth ≡ 8 }
    requires frames { frames ≤ frame_count (plain_of scene.now.project) }
    requires job { (job_of cache.now).scene.now ≡ scene.now }
    requires classes { cache.now.classes ≡ codes "plane" ∷ stock_class_names }
    requires own { IsOf cache.now pass.old }
    requires no_turn { turns pass.old ≡ [] }
    ensures pass { IsAsBefore pass.old pass.new }
{
    let mut pixels = Vec::new(alloc);
    'frames: for frame in 0..frames {
        let mut bytes = frame_of(rt, alloc, scene, effects, cache, pass, frame)?;
        pixels.append(&mut bytes)?;
    }
    Ok(pixels)
}

/// How many frames the root has.
fn frames_in(scene: &Scene) -> u32
    ensures { result ≡ frame_count (plain_of scene.now.project) }
{
    comp_at(scene, scene.project().root).frames
}

/// All frames of a project, drawn by a cache of a budget.
fn frames_within(
    rt: &impl Wait,
    alloc: Global,
    effects: &Counting,
    text: &str,
    budget: u64,
) -> Result<Vec<u8>, Fail> {
    let scene = scene_of(alloc, effects, text)?;
    let classes = stock_classes(alloc)?;
    let (cache, mut pass) = Cache::start(alloc, classes, budget, SceneJob::new(&scene, effects))?;
    let pixels = frames_of(
        rt,
        alloc,
        &scene,
        effects,
        &cache,
        &mut pass,
        frames_in(&scene),
    );
    let _history = cache.close(pass);
    Ok(pixels?)
}

#[test]
fn an_analysis_is_made_once(rt: HostRuntime) -> Result<(), Fail> {
    let alloc = rt.alloc();
    let effects = Counting::new(0);
    let mut project = NeverSource::new(STEPS.as_bytes().to_vec(alloc)?, 1000);
    let mut clips = NeverClips::new(BTreeMap::new(alloc));
    let mut out = NeverSink::new(alloc, 1000);
    let mut notes = NeverSink::new(alloc, 1000);
    // One worker, so that each frame is a window of its own.
    let words = words_of(alloc, "--workers|1")?;
    let status = run(
        &rt,
        alloc,
        &words,
        &effects,
        &mut project,
        &mut clips,
        &mut out,
        &mut notes,
        &NoGate,
    );
    assert_eq!(rt; status, Status::Ok);
    assert_eq!(rt; effects.analyses.load(Ordering::SeqCst), 2);
    Ok(())
}

#[test]
fn without_a_budget_nothing_is_kept(rt: HostRuntime) -> Result<(), Fail> {
    let alloc = rt.alloc();
    let (kept, again) = (Counting::new(0), Counting::new(0));
    let pixels = frames_within(&rt, alloc, &kept, STEPS, 1000000)?;
    assert_eq!(rt;
        pixels.as_slice(),
        [255, 10, 20, 30].repeat(alloc, 8)?.as_slice()
    );
    assert_eq!(rt;
        frames_within(&rt, alloc, &again, STEPS, 0)?.as_slice(),
        pixels.as_slice()
    );
    assert_eq!(rt; kept.analyses.load(Ordering::SeqCst), 2);
    assert_eq!(rt; again.analyses.load(Ordering::SeqCst), 8);
    Ok(())
}
