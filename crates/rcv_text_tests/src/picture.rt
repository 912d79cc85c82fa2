// A picture with each shape and each kind of group, and its text.

use rcv_picture::group::{Counts, Group, Says};
use rcv_picture::look::Look;
use rcv_picture::picture::Picture;
use rcv_picture::picture_text;
use rcv_picture::pixels::{Pixels, place};
use rcv_picture::shape::{Anchor, Shape};
use std::alloc::{AllocError, Global};
use std::test::Fail;

// What stands before the style sheet, and what stands after it. The sheet itself is compared in the examples' pictures.
const BEFORE: &[u8] =
    b"<svg xmlns=\"http://www.w3.org/2000/svg\" width=\"320\" height=\"90\" viewBox=\"0 0 320 90\" role=\"img\">
<title>A &lt;&amp;&quot;&gt; B</title>
<desc></desc>
<style>";

const AFTER: &[u8] = b"</style>
<defs><marker id=\"tip\" viewBox=\"0 0 14 14\" refX=\"13\" refY=\"7\" markerWidth=\"7\" markerHeight=\"7\" \
markerUnits=\"userSpaceOnUse\" orient=\"auto\"><path class=\"tip\" d=\"M 0 0 L 14 7 L 0 14 Z\"/></marker>\
<marker id=\"tip-undone\" viewBox=\"0 0 14 14\" refX=\"13\" refY=\"7\" markerWidth=\"7\" markerHeight=\"7\" \
markerUnits=\"userSpaceOnUse\" orient=\"auto\"><path class=\"tip undone-tip\" d=\"M 0 0 L 14 7 L 0 14 Z\"/></marker>\
<marker id=\"tip-again\" viewBox=\"0 0 14 14\" refX=\"13\" refY=\"7\" markerWidth=\"7\" markerHeight=\"7\" \
markerUnits=\"userSpaceOnUse\" orient=\"auto\"><path class=\"tip again-tip\" d=\"M 0 0 L 14 7 L 0 14 Z\"/></marker>\
<marker id=\"tip-back\" viewBox=\"0 0 14 14\" refX=\"13\" refY=\"7\" markerWidth=\"7\" markerHeight=\"7\" \
markerUnits=\"userSpaceOnUse\" orient=\"auto\"><path class=\"tip back-tip\" d=\"M 0 0 L 14 7 L 0 14 Z\"/></marker>\
</defs>
<rect class=\"background\" width=\"320\" height=\"90\"/>
<g><line class=\"life\" x1=\"0\" y1=\"7\" x2=\"12\" y2=\"345\"/></g>
<g class=\"mark undone\" id=\"e1\"><title>send A 1 &lt;? 0 @1</title>\
<circle class=\"send undone-send\" cx=\"9\" cy=\"10\" r=\"8\"/></g>
<g class=\"fold\" id=\"f2-4294967295\">\
<title>entries 2 to 4294967295: 5 sent, 4 received, 3 crashes, 2 recoveries; 1 undone</title>\
<rect class=\"box fold\" x=\"1\" y=\"2\" width=\"3\" height=\"4\" rx=\"5\"/></g>
<g class=\"arrow\" id=\"e3-e9\"><path class=\"wire\" d=\"M 1 2 3 4\"/>\
<text class=\"label\" x=\"5\" y=\"6\" text-anchor=\"end\">ok</text></g>
</svg>";

// A group with one shape.
fn group(alloc: Global, says: Says, title: &[u8], shape: Shape) -> Result<Group, AllocError> {
    let mut shapes = Vec::new(alloc);
    shapes.push(shape)?;
    Ok(Group {
        says,
        title: Vec::from_slice(alloc, title)?,
        shapes,
    })
}

// A line, a mark, a fold and an arrow.
fn groups(alloc: Global) -> Result<Vec<Group>, AllocError> {
    let line = Shape::Line {
        from: place(Pixels(0), Pixels(7)),
        to: place(Pixels(12), Pixels(345)),
        look: Look::Life,
    };
    let circle = Shape::Circle {
        center: place(Pixels(9), Pixels(10)),
        radius: Pixels(8),
        look: Look::SendUndone,
    };
    let rect = Shape::Rect {
        corner: place(Pixels(1), Pixels(2)),
        width: Pixels(3),
        height: Pixels(4),
        round: Pixels(5),
        look: Look::FoldBox,
    };
    let mut places = Vec::new(alloc);
    places.push(place(Pixels(1), Pixels(2)))?;
    places.push(place(Pixels(3), Pixels(4)))?;
    let path = Shape::Path {
        places,
        look: Look::Wire,
    };
    let words = Shape::Text {
        place: place(Pixels(5), Pixels(6)),
        anchor: Anchor::End,
        look: Look::Label,
        text: Vec::from_slice(alloc, b"ok")?,
    };
    let counts = Counts {
        sends: 5,
        receives: 4,
        crashes: 3,
        recoveries: 2,
        undone: 1,
    };
    let mark = Says::Entry {
        place: 0,
        undone: true,
    };
    let fold = Says::Fold {
        first: 1,
        end: u32::MAX,
        counts,
    };
    let arrow = Says::Arrow {
        send: 2,
        receive: 8,
        undone: false,
    };
    let mut groups = Vec::new(alloc);
    groups.push(group(alloc, Says::Nothing, b"", line)?)?;
    groups.push(group(alloc, mark, b"send A 1 <\x07 0 @1", circle)?)?;
    groups.push(group(alloc, fold, b"left out", rect)?)?;
    let mut arrow = group(alloc, arrow, b"", path)?;
    arrow.shapes.push(words)?;
    groups.push(arrow)?;
    Ok(groups)
}

#[test]
fn shapes_and_groups_are_written(rt: HostRuntime) -> Result<(), Fail> {
    let picture = Picture {
        width: Pixels(320),
        height: Pixels(90),
        title: Vec::from_slice(rt.alloc(), b"A <&\"> B")?,
        description: Vec::new(rt.alloc()),
        groups: groups(rt.alloc())?,
    };
    let text = picture_text(rt.alloc(), &picture)?;
    let text = text.as_slice();
    assert!(rt; text.starts_with(BEFORE));
    assert!(rt; text.ends_with(AFTER));
    Ok(())
}
