// The style sheet.

ghost use Rattle.std.specs.Prelude.{◌≡◌};
ghost use Rattle.rcv_picture.specs.Drawn.{style};

// How thick and how dashed, in what type, and which arrow head; then the colours, and those for a dark screen. The
// groups of what isn't kept at the end make all that is in them grey, whatever its own look.
const STYLE: &[u8] = b"
text{font-family:'DejaVu Sans Mono',Menlo,Consolas,monospace;font-size:11px}
.bold,.head,.big{font-weight:bold}
.head{font-size:12px}
.big{font-size:14px}
.note,.small,.count{font-size:9.5px}
.point{font-size:8.5px}
.label,.failed,.good,.note.again-text{paint-order:stroke;stroke-width:3px;stroke-linejoin:round}
.life,.gone,.down,.halo,.cut,.back,.band,.wire,.strike,.crash,.grid,.divider{fill:none}
.life{stroke-width:1.5}
.gone{stroke-width:1;stroke-dasharray:2 4}
.down{stroke-width:2;stroke-dasharray:2 3}
.halo{stroke-width:9}
.cut{stroke-width:1.6;stroke-dasharray:6 3}
.back{stroke-width:1.6}
.rise{marker-end:url(#tip-back)}
.band{stroke-width:3}
.pill{stroke-width:1.6}
.kept{stroke-width:1;stroke-dasharray:3 2}
.red,.waiting{stroke-width:2}
.wire{stroke-width:1.4;marker-end:url(#tip)}
.undone-wire,.arrow.undone .wire{stroke-width:1.2;stroke-dasharray:4 3;marker-end:url(#tip-undone)}
.again{stroke-width:1.8;marker-end:url(#tip-again)}
.no-head{marker-end:none}
.send,.receive{stroke-width:1.4}
.undone-receive,.undone .receive{stroke-dasharray:2 2}
.strike{stroke-width:1.1}
.crash{stroke-width:3.2;stroke-linecap:round}
.box,.grid{stroke-width:1}
.fold{stroke-dasharray:5 3}
.divider{stroke-width:1.2;stroke-dasharray:6 4}
.bar-shown{stroke-width:2}
.background,.on-send,.receive,.pill,.waiting{fill:#ffffff}
.label,.failed,.good,.halo,.note.again-text{stroke:#ffffff}
text,.send,.dot,.tip{fill:#17212b}
.on-send{fill:#ffffff}
.send,.receive,.wire{stroke:#17212b}
.note,.count{fill:#5b6875}
.life,.divider{stroke:#5b6875}
.box{fill:#f2f4f6;stroke:#b9c2cb}
.grid{stroke:#b9c2cb}
.bar-kept{fill:#b9c2cb}
.zone{fill:#fbe9d9}
.lost,.bar-undone,.back-tip{fill:#b4500a}
.cut,.back,.band,.pill{stroke:#b4500a}
.failed{fill:#c4141c}
.crash,.down,.red{stroke:#c4141c}
.again-text,.again-tip,.bar-shown{fill:#1559c9}
.again,.waiting,.bar-shown{stroke:#1559c9}
.good{fill:#1d7a3d}
.gone,.strike,.undone-wire,.arrow.undone .wire{stroke:#7d8893}
.undone-send,.undone .send{fill:#7d8893;stroke:#7d8893}
.undone-receive,.undone .receive{stroke:#7d8893}
.gone-text,.undone-tip,.undone .label{fill:#7d8893}
@media (prefers-color-scheme:dark){
.background,.on-send,.receive,.pill,.waiting{fill:#0f151b}
.label,.failed,.good,.halo,.note.again-text{stroke:#0f151b}
text,.send,.dot,.tip{fill:#e8edf2}
.on-send{fill:#0f151b}
.send,.receive,.wire{stroke:#e8edf2}
.note,.count{fill:#9fadba}
.life,.divider{stroke:#9fadba}
.box{fill:#1b242d;stroke:#46525e}
.grid{stroke:#46525e}
.bar-kept{fill:#46525e}
.zone{fill:#3a2616}
.lost,.bar-undone,.back-tip{fill:#ffa04d}
.cut,.back,.band,.pill{stroke:#ffa04d}
.failed{fill:#ff6b6b}
.crash,.down,.red{stroke:#ff6b6b}
.again-text,.again-tip,.bar-shown{fill:#76aaff}
.again,.waiting,.bar-shown{stroke:#76aaff}
.good{fill:#6bd08d}
.gone,.strike,.undone-wire,.arrow.undone .wire{stroke:#84909c}
.undone-send,.undone .send{fill:#84909c;stroke:#84909c}
.undone-receive,.undone .receive{stroke:#84909c}
.gone-text,.undone-tip,.undone .label{fill:#84909c}
}
";

/// The style sheet, which is the same for each picture.
#[tactic(auto, unfolding(crate::specs::Drawn::style))]
pub fn style() -> &'static [u8]
    ensures { result.now ≡ style }
{
    STYLE
}
