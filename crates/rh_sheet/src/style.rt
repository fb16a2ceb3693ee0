//! How a sheet looks: on a wide screen, on a narrow one, and on paper.
//!
//! What belongs to a figure is told apart by shape as well as by colour: a block that may slide is dark, one of a heap
//! light, a hole striped, free memory white; what a command has changed has a thick edge, what it has given back a
//! dashed one. Rules for what stands in a figure name one class and no parent: figures use each other's parts. Where
//! the system asks for dark colours a screen has them, and what was dark is bright there; paper has none.

/// The style of every sheet.
pub const STYLE: &[u8] = b"\
:root { --text: #1d2329; --quiet: #505963; --edge: #86909a; --faint: #d9dee3; --changed: #a8330a; --paper: white; }
:root { --free: white; --lens: #eff2f5; --ink: #4a5159; --stripe: #69727c; --post: #6b747e; }
:root { --anchor: #ffe9a8; --lead: #8a6400; color-scheme: light dark; }
:root { --around: drop-shadow(2px 0 0 var(--changed)) drop-shadow(-2px 0 0 var(--changed))
  drop-shadow(0 2px 0 var(--changed)) drop-shadow(0 -2px 0 var(--changed)); }
:root { --stripes: url(#stripes); --words: url(#words); }
* { box-sizing: border-box; }
html { font: 16px/1.5 'Source Sans 3', 'Noto Sans', 'Liberation Sans', Arial, sans-serif; }
body { display: flex; flex-direction: column; max-width: 100rem; margin: 0 auto; padding: 1.25rem 1.5rem 5rem; }
body { color: var(--text); background: var(--paper); }
code, pre, text { font-family: 'DejaVu Sans Mono', 'Liberation Mono', Menlo, Consolas, monospace; }
a { color: inherit; }

/* the name of the script, and how figures are read */
h1 { margin: 0 0 0.5rem; font-size: 1.8rem; line-height: 1.2; }
header > p { max-width: 46rem; margin: 0.4rem 0; color: var(--quiet); }
.key { display: grid; grid-template-columns: repeat(auto-fill, minmax(13rem, 1fr)); gap: 0.3rem 1rem; }
.key { max-width: 60rem; margin: 0.8rem 0 0; padding: 0; font-size: 0.9rem; color: var(--quiet); list-style: none; }
.key li { display: flex; align-items: center; gap: 0.6rem; }
.key svg { flex: none; width: 2.75rem; height: 1.1rem; }

/* the links to all steps stand first, though they are written last */
body > nav { order: -1; margin-bottom: 1.25rem; padding-bottom: 0.4rem; border-bottom: 1px solid var(--faint); }
body > nav { font-size: 0.85rem; line-height: 1.9; }
nav a { padding: 0.1rem 0.35rem; border-radius: 3px; text-decoration: none; }
nav a:hover, nav a:focus { background: var(--faint); }

/* a step: what is said, the figure, and what stands beside it */
section { margin-top: 1.5rem; padding-top: 1rem; border-top: 1px solid var(--faint); }
section nav { float: right; margin-left: 1rem; color: var(--quiet); }
section nav a { color: var(--quiet); }
h2 { margin: 0 0 0.25rem; font-size: 1.1rem; font-weight: normal; overflow-wrap: anywhere; }
h2 b { margin-right: 0.4rem; }
h3 { margin: 1rem 0 0.3rem; font-size: 0.95rem; font-weight: normal; color: var(--quiet); }
h3 b { margin-right: 0.4rem; color: var(--text); }
h3 + h3 { margin-top: 0; }
pre { margin: 0; font-size: 0.88rem; white-space: pre-wrap; overflow-wrap: anywhere; }
.title { margin: 0 0 0.5rem; font-size: 1.3rem; line-height: 1.3; }
.remark { margin: 0 0 0.6rem; font-style: italic; }
.still { margin: 0.5rem 0 0; color: var(--quiet); }
.change { position: relative; margin: 0.15rem 0 0; padding-left: 1.1rem; }
.change::before { content: '\\2022'; position: absolute; left: 0.2rem; color: var(--changed); }
pre + .change { margin-top: 0.6rem; }
.memory { margin-top: 1rem; overflow-x: auto; }
.memory svg { min-width: 40rem; }
.memory svg:has(> [data-key]) { min-width: 60rem; }
aside svg { max-width: 22rem; margin-top: 1.25rem; }
table { width: 100%; margin-top: 1.25rem; border-collapse: collapse; font-size: 0.85rem; }
caption { font-weight: bold; text-align: left; }
th, td { padding: 0.2rem 0.6rem 0.2rem 0; border-top: 1px solid var(--faint); text-align: left; vertical-align: top; }
th { font-weight: normal; color: var(--quiet); }
td:nth-child(2), td:nth-child(5) { overflow-wrap: anywhere; }

/* figures */
svg { display: block; width: 100%; height: auto; overflow: visible; }
.defs { position: absolute; width: 0; height: 0; }
text { font-size: 16px; fill: var(--text); }
.side { font-weight: bold; }
.small { font-size: 14px; fill: var(--quiet); }
.num { font-size: 18px; fill: var(--quiet); }
.tag { font-size: 13px; font-weight: bold; text-anchor: middle; }
.addr { fill: var(--quiet); }
.chipn { font-size: 14px; text-anchor: middle; }
.lab { font-size: 14px; text-anchor: middle; }
.gap { fill: var(--quiet); text-anchor: middle; }
.first { font-size: 15px; font-weight: bold; }
.line { font-size: 15px; }

/* whose it is: six tints of tasks, the module area, other areas; flex blocks are dark */
.t0 { fill: #cfe0f3; }
.t1 { fill: #f6dfa4; }
.t2 { fill: #d3e8c4; }
.t3 { fill: #f2d0d8; }
.t4 { fill: #ded3ee; }
.t5 { fill: #c3e6e2; }
.m { fill: #dedfe0; }
.o { fill: #ece4d4; }
.flex.t0 { fill: #2f6299; }
.flex.t1 { fill: #86600a; }
.flex.t2 { fill: #47742b; }
.flex.t3 { fill: #94415b; }
.flex.t4 { fill: #614d98; }
.flex.t5 { fill: #1f6f6a; }

/* what it is */
.cells { fill: url(#cells); stroke: var(--edge); }
.row { fill: var(--free); stroke: var(--edge); }
.gone { fill: none; stroke: var(--changed); stroke-dasharray: 6 4; }
.freed { fill: var(--free); stroke: var(--changed); stroke-width: 2; stroke-dasharray: 4 3; }
.anchors { fill: var(--words); stroke: var(--edge); }
.tick { stroke: var(--text); stroke-width: 1.25; transform: translateX(0.5px); }
.head { fill: var(--ink); }
.used { stroke: var(--ink); }
.hole { fill: var(--stripes); stroke: var(--stripe); }
.many { fill: var(--words); stroke: var(--ink); }
.top { fill: none; }
.spare { fill: none; }
.flex { stroke: var(--free); stroke-width: 0.5; }
.fresh { stroke: var(--changed); stroke-width: 3; }
/* the edge of what has changed has a line of paper inside: it would be lost on a dark block */
.flex.fresh:not(.card) { stroke: var(--free); stroke-width: 2; filter: var(--around); }
.lens { fill: var(--lens); }
.card { fill: var(--free); stroke: var(--edge); stroke-width: 1; }
.card.hole { stroke-dasharray: 4 3; }
.card.more { stroke: none; }
.card.fresh { stroke: var(--changed); stroke-width: 3; }
.casing { fill: none; stroke: var(--paper); stroke-width: 7; }
.casing:has(+ .ghost) { stroke: none; }
.ghost { fill: none; stroke: var(--changed); stroke-width: 2; stroke-dasharray: 3 2; }
.slide { fill: none; stroke: var(--changed); stroke-width: 2.5; marker-end: url(#point); }

/* words in a piece, which has the same class */
.lab.used, .lab.flex { stroke: none; }
.lab.hole, .lab.many { stroke: var(--free); stroke-width: 4px; paint-order: stroke; }
.lab.used, .lab.hole, .lab.many { fill: var(--text); }
.lab.flex { fill: var(--free); }
.lab.top, .lab.spare { fill: var(--quiet); }

/* a lens: parts as wide as their words want, in rows; a strip of pages at true scale above them */
.page { stroke: var(--edge); }
.pagen { font-size: 11px; }
.mark { fill: var(--ink); stroke: none; }
.mark.hole { fill: var(--free); }
.mark.anchors { fill: var(--lead); }
.band { font-size: 11.5px; fill: var(--quiet); stroke: var(--paper); stroke-width: 4px; paint-order: stroke; }
.part { stroke: var(--edge); }
.part.hole { fill: var(--free); stroke: var(--stripe); stroke-dasharray: 5 3; }
.part.top, .part.spare { fill: var(--free); stroke-dasharray: 1.5 2.5; }
.part.anchor { fill: var(--anchor); stroke: var(--lead); }
.part.none { fill: var(--free); stroke-dasharray: 4 3; }
.part.fresh { stroke: var(--changed); stroke-width: 3; stroke-dasharray: none; }
.word { fill: var(--ink); }
.name { font-size: 11.5px; font-weight: bold; }
.told { font-size: 11.5px; }
.byte { fill: var(--free); stroke: var(--edge); }
.digits { font-size: 11px; text-anchor: middle; }
.letter { font-size: 14px; font-weight: bold; text-anchor: middle; }
.break { fill: none; stroke: var(--quiet); stroke-width: 1.5; }
.leads { fill: none; stroke: var(--lead); stroke-width: 1.5; marker-end: url(#lead); }
.leads.fresh { stroke: var(--changed); stroke-width: 2.5; marker-end: url(#point); }

/* what stands in a part comes behind its rectangle, in a group with it */
.flex ~ .name, .flex ~ .told, .part.head ~ .name, .part.head ~ .told { fill: var(--free); }
.flex ~ .break, .flex ~ .word { stroke: var(--free); }
.top ~ .name, .spare ~ .name, .hole ~ .name, .none ~ .name { fill: var(--quiet); }
.top ~ .told, .spare ~ .told, .hole ~ .told, .none ~ .told { fill: var(--quiet); }

/* messages between the tasks */
.who { font-size: 14px; font-weight: bold; text-anchor: middle; }
.dead { fill: var(--quiet); text-decoration: line-through; }
.life { stroke: var(--edge); }
.beat { font-size: 12px; fill: var(--quiet); }
.msg { fill: none; stroke: var(--post); stroke-width: 1.25; marker-end: url(#tip); }
.waits, .untaken { stroke-dasharray: 5 4; }
.msg.now { stroke: var(--changed); stroke-width: 2; marker-end: url(#point); }
.msg.held { marker-end: url(#ring); }
.msg.vanished { marker-end: url(#cross); }
.mname { font-size: 12px; stroke: var(--paper); stroke-width: 4px; paint-order: stroke; }
.mname.now { font-weight: bold; }
.west { text-anchor: end; }

/* patterns, and the ends of arrows */
pattern path { fill: none; stroke: var(--faint); }
#stripes path { stroke: var(--stripe); stroke-width: 1.4; }
#slant stop { stop-color: var(--free); }
#slant stop + stop { stop-color: var(--stripe); }
#tip path { fill: var(--post); }
#point path { fill: var(--changed); }
#lead path { fill: var(--lead); }
#ring path { fill: var(--paper); stroke: var(--post); stroke-width: 2; }
#cross path { stroke: var(--text); stroke-width: 3; }

/* in the dark tints are dim, and flex blocks bright */
@media screen and (prefers-color-scheme: dark) {
  :root { --text: #e6eaee; --quiet: #aab4be; --edge: #6d7883; --faint: #353e47; --changed: #ffa27a; --paper: #1a1f25; }
  :root { --free: #14181c; --lens: #262d34; --ink: #b4bdc6; --stripe: #8b959f; --post: #98a2ad; }
  :root { --anchor: #5b4a12; --lead: #e8c25a; }
  .t0 { fill: #27435f; }
  .t1 { fill: #54431a; }
  .t2 { fill: #334d27; }
  .t3 { fill: #57323d; }
  .t4 { fill: #41375b; }
  .t5 { fill: #234b48; }
  .m { fill: #3a4148; }
  .o { fill: #463f31; }
  .flex.t0 { fill: #8fbdec; }
  .flex.t1 { fill: #e3bb5b; }
  .flex.t2 { fill: #9fd07f; }
  .flex.t3 { fill: #ea9fb5; }
  .flex.t4 { fill: #bcaaf0; }
  .flex.t5 { fill: #79cec8; }
}

/* a link to a step shows that step alone, without how figures are read */
@media screen {
  body:has(section:target) :is(header, section:not(:target)) { display: none; }
  section:target { margin-top: 0; padding-top: 0; border-top: none; }
}

/* what is said and what stands beside on the left, the figure on the right */
@media (min-width: 72rem) {
  section { display: grid; grid-template: auto 1fr / 20rem minmax(0, 1fr); gap: 0 2.5rem; }
  .says { grid-area: 1 / 1; }
  aside { grid-area: 2 / 1; }
  .memory { grid-area: 1 / 2 / span 2; margin: 0; overflow: visible; }
  .memory svg:has(> [data-key]) { min-width: 0; }
}

/* on paper no step is cut, and no link is shown; a pattern would be a picture there, and make a print large */
@media print {
  :root { --stripes: url(#slant); --words: var(--faint); }
  @page { size: A4; margin: 12mm; }
  html { font-size: 11px; }
  body { display: block; max-width: none; padding: 0; }
  nav { display: none; }
  section { display: grid; grid-template-columns: 1fr 1fr; gap: 0 2rem; margin-top: 0.8rem; break-inside: avoid; }
  .says { grid-area: 1 / 1; }
  aside { grid-area: 1 / 2; }
  .memory { grid-area: 2 / 1 / auto / span 2; margin-top: 0.6rem; overflow: visible; }
  .memory svg, .memory svg:has(> [data-key]) { min-width: 0; }
  h3 { break-after: avoid; }
  svg, table { break-inside: avoid; }
}
";
