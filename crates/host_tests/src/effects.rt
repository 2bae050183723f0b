//! Effects in whole runs; each pixel is worked by hand.

use crate::clips::run_with;
use crate::drawn::rendered;
use host_io::Status;
use std::alloc::Global;
use std::collections::BTreeMap;
use std::process::Abort;
use std::sync::Wait;
use std::test::Fail;
use std::thread::Threads;

/// Two pixels, (255, 1, 2, 3) and (255, 4, 5, 6), and none at the right.
const THREE: &str =
    "{\"width\":3,\"height\":1,\"frame\":[1,24],\"frames\":1,\"layers\":[{\"source\":{\"solid\":[1,1,255,1,2,3]}},{\"source\":{\"solid\":[1,1,255,4,5,6]},\"x\":1}]}";

/// The effects of a solid of one colour, and the colour that it then has.
type Coloured = (&'static str, &'static [u8]);

/// Members of the layer that shows the three pixels, and the frame.
type Moved = (&'static str, &'static [u8; 12]);

/// The frame of the three pixels under these members, over layers that are not seen.
fn moved(
    rt: &(impl Threads + Wait + Sync),
    alloc: Global,
    members: &str,
    map: &str,
) -> Result<Vec<u8>, Fail> {
    let text = format!(in alloc;
        "{{\"version\":1,\"depth\":8,\"root\":1,\"comps\":[{THREE},{{\"width\":3,\"height\":1,\"frame\":[1,24],\"frames\":1,\"layers\":[{{\"source\":{{\"comp\":0}},{members}}},{{\"source\":{{\"solid\":[3,1,{map}]}},\"out\":[0,1]}}]}}]}}"
    )?;
    let ran = run_with(rt, alloc, "", text.as_str(), BTreeMap::new(alloc), &[])?;
    if ran.status != Status::Ok {
        return Err("a run that ends well")?;
    }
    Ok(ran.pixels)
}

/// The solid (255, 10, 20, 30), or with other channels at 16 bits, behind these effects.
fn coloured(
    rt: &(impl Abort + Threads + Wait + Sync),
    alloc: Global,
    depth: u32,
    solid: &str,
    rows: &[Coloured],
) -> Result<(), Fail> {
    for (effects, pixel) in rows {
        let layer = format!(in alloc;
            "{{\"source\":{{\"solid\":[1,1,{solid}]}},\"effects\":[{effects}]}}"
        )?;
        let picture = rendered(rt, alloc, depth, 1, 1, layer.as_str())?;
        assert_eq!(rt; picture.as_slice(), *pixel, "{effects}");
    }
    Ok(())
}

#[test]
fn effects_apply_in_their_order(rt: HostRuntime) -> Result<(), Fail> {
    let alloc = rt.alloc();
    coloured(
        &rt,
        alloc,
        8,
        "255,10,20,30",
        &[
            ("", &[255, 10, 20, 30]),
            (
                "{\"effect\":\"Invert\",\"params\":[0]}",
                &[255, 245, 235, 225],
            ),
            (
                "{\"effect\":\"Invert\",\"params\":[0]},{\"effect\":\"ChannelShift\",\"params\":[4,1,2]}",
                &[255, 0, 235, 225],
            ),
            (
                "{\"effect\":\"ChannelShift\",\"params\":[4,1,2]},{\"effect\":\"Invert\",\"params\":[0]}",
                &[255, 255, 235, 225],
            ),
            (
                "{\"effect\":\"PaletteMap\",\"sequence\":\"0a141effffff\"}",
                &[255, 10, 20, 30],
            ),
        ],
    )?;
    coloured(
        &rt,
        alloc,
        16,
        "32768,16384,0,1",
        &[(
            "{\"effect\":\"Invert\",\"params\":[0]}",
            &[128, 0, 64, 0, 128, 0, 127, 255],
        )],
    )
}

#[test]
fn a_blur_draws_around_its_input(rt: HostRuntime) -> Result<(), Fail> {
    let alloc = rt.alloc();
    let wide = rendered(
        &rt,
        alloc,
        8,
        3,
        1,
        "{\"source\":{\"solid\":[5,1,255,255,255,255]},\"x\":-1,\"effects\":[{\"effect\":\"BoxBlur\",\"params\":[2]}]}",
    )?;
    assert_eq!(rt;
        wide.as_slice(),
        [41, 41, 41, 41, 51, 51, 51, 51, 41, 41, 41, 41].as_slice()
    );
    let point = rendered(
        &rt,
        alloc,
        8,
        3,
        1,
        "{\"source\":{\"solid\":[1,1,255,255,255,255]},\"x\":1,\"effects\":[{\"effect\":\"BoxBlur\",\"params\":[1]}]}",
    )?;
    assert_eq!(rt;
        point.as_slice(),
        [28, 28, 28, 28, 28, 28, 28, 28, 28, 28, 28, 28].as_slice()
    );
    Ok(())
}

#[test]
fn a_shadow_lies_under_its_input(rt: HostRuntime) -> Result<(), Fail> {
    let picture = rendered(
        &rt,
        rt.alloc(),
        8,
        2,
        1,
        "{\"source\":{\"solid\":[1,1,255,255,0,0]},\"effects\":[{\"effect\":\"DropShadow\",\"params\":[1,0,5000,0,0,0]}]}",
    )?;
    assert_eq!(rt;
        picture.as_slice(),
        [255, 255, 0, 0, 128, 0, 0, 0].as_slice()
    );
    Ok(())
}

#[test]
fn a_nested_composition_behind_effects(rt: HostRuntime) -> Result<(), Fail> {
    let alloc = rt.alloc();
    let rows: [Moved; 4] = [
        ("\"effects\":[]", &[255, 1, 2, 3, 255, 4, 5, 6, 0, 0, 0, 0]),
        (
            "\"effects\":[{\"effect\":\"Offset\",\"params\":[1,0]}]",
            &[0, 0, 0, 0, 255, 1, 2, 3, 255, 4, 5, 6],
        ),
        (
            "\"effects\":[{\"effect\":\"Offset\",\"params\":[-1,0]}]",
            &[255, 4, 5, 6, 0, 0, 0, 0, 255, 1, 2, 3],
        ),
        (
            "\"effects\":[{\"effect\":\"Mosaic\",\"params\":[2]}]",
            &[255, 3, 4, 5, 255, 3, 4, 5, 0, 0, 0, 0],
        ),
    ];
    for (members, picture) in rows {
        assert_eq!(rt;
            moved(&rt, alloc, members, "0,0,0,0")?.as_slice(),
            picture.as_slice(),
            "{members}"
        );
    }
    Ok(())
}

#[test]
fn a_map_displaces_its_input(rt: HostRuntime) -> Result<(), Fail> {
    let alloc = rt.alloc();
    let members = "\"effects\":[{\"effect\":\"Displace\",\"params\":[1,0],\"layers\":[1]}]";
    for (map, picture) in [
        // red as high as alpha looks a point to the right
        ("255,255,0,0", &[255, 4, 5, 6, 0, 0, 0, 0, 0, 0, 0, 0]),
        // none looks a point to the left, and so does a little less than half
        ("255,0,255,0", &[0, 0, 0, 0, 255, 1, 2, 3, 255, 4, 5, 6]),
        ("255,127,0,0", &[0, 0, 0, 0, 255, 1, 2, 3, 255, 4, 5, 6]),
        ("255,128,0,0", &[255, 1, 2, 3, 255, 4, 5, 6, 0, 0, 0, 0]),
        ("0,0,0,0", &[255, 1, 2, 3, 255, 4, 5, 6, 0, 0, 0, 0]),
    ] {
        assert_eq!(rt;
            moved(&rt, alloc, members, map)?.as_slice(),
            picture.as_slice(),
            "{map}"
        );
    }
    Ok(())
}

#[test]
fn a_matte_is_taken_behind_its_effects(rt: HostRuntime) -> Result<(), Fail> {
    let alloc = rt.alloc();
    for (effects, picture) in [
        ("", &[255, 10, 20, 30]),
        ("{\"effect\":\"Invert\",\"params\":[0]}", &[0, 0, 0, 0]),
    ] {
        let layers = format!(in alloc;
            "{{\"source\":{{\"solid\":[1,1,255,255,255,255]}},\"effects\":[{effects}]}},{{\"source\":{{\"solid\":[1,1,255,10,20,30]}},\"matte\":\"Luma\"}}"
        )?;
        assert_eq!(rt;
            rendered(&rt, alloc, 8, 1, 1, layers.as_str())?.as_slice(),
            picture.as_slice()
        );
    }
    Ok(())
}

#[test]
fn parameters_are_read_at_the_tick(rt: HostRuntime) -> Result<(), Fail> {
    let picture = rendered(
        &rt,
        rt.alloc(),
        8,
        1,
        2,
        "{\"source\":{\"solid\":[1,1,255,10,20,30]},\"effects\":[{\"effect\":\"ScaleOffset\",\"params\":[[[10000,[0,1],\"hold\"],[5000,[1,24],\"hold\"]],0]}]}",
    )?;
    assert_eq!(rt;
        picture.as_slice(),
        [255, 10, 20, 30, 255, 5, 10, 15].as_slice()
    );
    Ok(())
}
