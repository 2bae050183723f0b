ghost use Rattle.std.specs.Prelude.{◌≡◌};

use geom_rect::Rect;

fn sides(left: i32, top: i32, right: i32, bottom: i32) -> Rect
    ensures { result ≡ record { left = left; top = top; right = right; bottom = bottom } }
{
    Rect {
        left,
        top,
        right,
        bottom,
    }
}

#[test]
fn sets_of_points(rt: HostRuntime) {
    let frame = sides(0, 0, 4, 3);
    let low = sides(2, 1, 6, 9);
    let beside = sides(4, 0, 7, 3);
    let none = sides(5, 5, 5, 9);
    let turned = sides(3, 3, 1, 9);
    assert!(rt; !frame.is_empty() && none.is_empty() && turned.is_empty());
    for (x, y, want) in [
        (0, 0, true),
        (3, 2, true),
        (4, 2, false),
        (3, 3, false),
        (-1, 0, false),
        (0, -1, false),
    ] {
        assert_eq!(rt; frame.has(x, y), want, "at {x}, {y}");
    }
    assert_eq!(rt; frame.area(), 12);
    assert_eq!(rt; none.area(), 0);
    assert_eq!(rt; turned.area(), 0);
    let whole = sides(i32::MIN, i32::MIN, i32::MAX, i32::MAX);
    assert_eq!(rt; whole.area(), 18446744065119617025);
    assert_eq!(rt; frame.meet(&low), sides(2, 1, 4, 3));
    assert!(rt; frame.meet(&beside).is_empty());
    assert_eq!(rt; frame.cover(&low), sides(0, 0, 6, 9));
    assert_eq!(rt; frame.cover(&none), frame);
    assert_eq!(rt; turned.cover(&frame), frame);
    assert_eq!(rt; none.cover(&turned), sides(0, 0, 0, 0));
    assert_eq!(rt; frame.shift(-7, 1000000), sides(-7, 1000000, -3, 1000003));
    assert_eq!(rt; frame.grow(2), sides(-2, -2, 6, 5));
    assert_eq!(rt; none.grow(2), none);
    assert_eq!(rt;
        sides(1000000, -1000000, 1000000, 0).grow(1000000),
        sides(1000000, -1000000, 1000000, 0)
    );
}
