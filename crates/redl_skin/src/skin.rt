//! The page's own policy, style and script. `tools/skin` makes this file from `page/`.

/// The security policy of the page: its own style and script alone, and nothing is ever fetched.
pub const POLICY: &str =
    "default-src 'none'; script-src 'sha256-OEz0EUExeT3ZrSsbsbLYmK26bDJF29kkgc6cVeqQGxg='; style-src 'sha256-xai1r4aCEFYqIxs/1Yv9KlVK9Y6M3Xu4qin5fycF2kE='; img-src data:; base-uri 'none'; form-action 'none'; require-trusted-types-for 'script'; trusted-types 'none'";

/// The style sheet of the page.
pub const STYLE: &str = "/* colours, and what all elements share */
:root {
  color-scheme: light dark;
  --paper: #fff; --desk: #eef0f3; --ink: #1c1e21; --soft: #555a62; --rule: #d3d7dd;
  --open: #fff0b8; --disputed: #ffd9d2; --focus: #0b57d0; --yes: #0b6b3a; --no: #a5231d; --author: var(--soft);
  --author-1: #a3282c; --author-2: #0b5fa5; --author-3: #1b6e35; --author-4: #7a3fa0;
  --author-5: #8a4b00; --author-6: #00666b; --author-7: #a01f6c; --author-8: #4b5320;
  font: 16px/1.5 system-ui, \"Liberation Sans\", sans-serif;
}
@media (prefers-color-scheme: dark) {
  :root {
    --paper: #1b1d21; --desk: #121316; --ink: #e6e8eb; --soft: #a9afb8; --rule: #3a3e45;
    --open: #4a3f10; --disputed: #5c2620; --focus: #8ab4f8; --yes: #7bd39a; --no: #ff9d94;
    --author-1: #ff9c9c; --author-2: #8cc4ff; --author-3: #86d99b; --author-4: #d6aaff;
    --author-5: #f5b86b; --author-6: #74d5d9; --author-7: #ff9fd2; --author-8: #c3cf86;
  }
}
* { box-sizing: border-box; }
body { margin: 0; height: 100vh; height: 100dvh; background: var(--desk); color: var(--ink); display: grid; grid: \"top top\" auto \"text list\" minmax(0, 1fr) / minmax(0, 1fr) 26rem; }
:focus-visible { outline: 2px solid var(--focus); outline-offset: 2px; }
main:focus-visible, aside > ol:focus-visible { outline-offset: -2px; }
button, input, select { font: inherit; color: inherit; background: var(--paper); border: 1px solid var(--soft); border-radius: 5px; padding: .15rem .6rem; min-width: 0; }
button { cursor: pointer; }
button:hover { background: var(--desk); }
button:disabled { color: var(--soft); border-color: var(--rule); cursor: default; }

/* the bar at the top */
header { grid-area: top; display: flex; flex-wrap: wrap; gap: .4rem 1.2rem; align-items: center; padding: .6rem 1.2rem; background: var(--paper); border-bottom: 1px solid var(--rule); }
h1 { font-size: 1.05rem; margin: 0; }
#tally { flex: 1 1 10rem; margin: 0; color: var(--soft); }
fieldset { border: 0; margin: 0; padding: 0; display: flex; gap: .8rem; }
legend { float: left; margin-right: .8rem; padding: 0; }
legend, label > span { color: var(--soft); }
#save { background: var(--focus); border-color: var(--focus); color: var(--paper); font-weight: 600; }
#open, #help { font-size: .9rem; }
#printed { display: none; }

/* the bars above the list */
.sign { display: grid; grid-template-columns: 1fr auto; gap: .6rem; padding: .6rem 1rem 0; align-items: end; }
label { display: grid; }
fieldset label { display: block; }
.told { display: flex; min-height: 2.6rem; padding: .3rem 1rem; align-items: center; gap: .6rem; }
#undo { max-width: 45%; white-space: nowrap; overflow: hidden; text-overflow: ellipsis; }
#line { margin: 0; flex: 1; overflow-wrap: anywhere; }
#line.fault { color: var(--no); font-weight: 600; }
aside > details { border: 0; padding: 0 1rem; }
summary { cursor: pointer; }
.filter { display: grid; grid-template-columns: repeat(6, 1fr); gap: .5rem; padding-top: .3rem; }
.filter > * { grid-column: span 2; }
.filter > button { grid-column: span 3; }
.filter label:has(#advance, #together) { align-content: space-between; justify-items: start; }
#advance, #together { width: 1.1rem; height: 1.1rem; margin: .35rem 0; }
.filter select { padding: .15rem; }
.keys { margin: 0; padding: .5rem 1rem; color: var(--soft); font-size: .8rem; }
kbd { border: 1px solid var(--soft); border-radius: 3px; padding: 0 .35em; font: .75rem ui-monospace, monospace; margin-left: .6em; }
kbd:first-child { margin-left: 0; }

/* the document */
main { grid-area: text; overflow: auto; padding: 1.5rem; }
section { max-width: 48rem; margin: 0 auto 1.5rem; padding: 2rem 2.5rem 2rem 3rem; background: var(--paper); border: 1px solid var(--rule); border-radius: 3px; font: 1.05rem/1.6 Georgia, \"Liberation Serif\", serif; overflow-wrap: anywhere; }
.far { content-visibility: auto; contain-intrinsic-size: auto 320rem; }
section > .far { margin-left: -1.6rem; padding-left: 1.6rem; }
h2 { font: .8rem/1.4 system-ui, \"Liberation Sans\", sans-serif; color: var(--soft); margin: 0 0 .8rem; }
main p, main .p { position: relative; margin: 0 0 .6rem; min-height: 1.6em; white-space: pre-wrap; }
[role=\"heading\"] { font-weight: 700; font-family: system-ui, \"Liberation Sans\", sans-serif; }
[aria-level=\"2\"] { font-size: 1.5rem; }
[aria-level=\"3\"] { font-size: 1.25rem; }
[aria-level=\"4\"] { font-size: 1.1rem; }
table { margin: .4rem 0 1.2rem; width: 100%; border-collapse: collapse; position: relative; }
tr, td { position: relative; }
td { border: 1px solid var(--rule); padding: .2rem .5rem; vertical-align: top; }
td.merged { border-top: hidden; }
td > p:last-child { margin: 0; }
/* a long table is boxes in place of a table, so that rows that are far cost nothing */
.long, .long > tbody { display: block; }
.long > tbody > tr { display: grid; grid-auto-flow: column; grid-auto-columns: minmax(2rem, 1fr); }
.long > tbody > tr > td { display: block; margin: 0 0 -1px -1px; }
.long > tbody > tr > td[colspan=\"2\"] { grid-column: span 2; }
.long > tbody > tr > td[colspan=\"3\"] { grid-column: span 3; }
.long > tbody > tr > td[colspan=\"4\"] { grid-column: span 4; }
.picture, .box { border: 1px solid var(--soft); padding: .1rem .6rem; font-size: .9em; }
.picture { color: var(--soft); }
.box { display: block; }
.box, main details { white-space: normal; }
.equation { border: 1px solid var(--rule); padding: 0 .4em; font-style: italic; }
.page-end, .column-end { display: block; border-top: 1px dashed var(--soft); font: .7rem/1.4 system-ui, \"Liberation Sans\", sans-serif; color: var(--soft); }
.page-end::before { content: \"page break\"; }
.column-end::before { content: \"column break\"; }
/* text that no reader of the document sees says so */
.hidden { border-bottom: 2px dotted var(--soft); background: repeating-linear-gradient(135deg, transparent 0 5px, color-mix(in srgb, var(--soft) 18%, transparent) 5px 6px); }
.hidden::before { content: \"hidden: \"; font: .7rem system-ui, \"Liberation Sans\", sans-serif; color: var(--soft); }
/* letters with many marks reach no further than their paragraph, and characters that aren't seen have a sign */
.stacked { clip-path: inset(0 -100vmax); }
.unseen { unicode-bidi: isolate; }
.unseen:is([data-sign=\"LRM\"], [data-sign=\"RLM\"], [data-sign=\"ALM\"]) { unicode-bidi: normal; }
.unseen::after { content: attr(data-sign); unicode-bidi: isolate; display: inline-block; font: 600 .6rem/1.3 system-ui, \"Liberation Sans\", sans-serif; color: var(--no); background: var(--paper); border: 1px solid; border-radius: 3px; padding: 0 .2em; margin: 0 .1em; vertical-align: .15em; text-decoration: none; text-indent: 0; }
.copy { max-width: 48rem; margin: 0 auto 1.5rem; padding: .8rem 1.2rem; border: 2px solid var(--no); border-radius: 3px; background: var(--paper); }
/* until all is there, only the first blocks of a story have to be laid out */
@media (scripting: enabled) {
  body:not([data-view]) section > :nth-child(n + 200), body:not([data-view]) tbody > :nth-child(n + 200), body:not([data-view]) aside { display: none; }
}
main details { border-left: 2px solid var(--rule); padding-left: .6rem; }
main summary { font: .8rem/1.6 system-ui, \"Liberation Sans\", sans-serif; color: var(--soft); }

/* numbers of clauses, pictures, notes and comments */
main [data-number]::before { content: attr(data-number); unicode-bidi: isolate; display: inline-block; min-width: 1.8em; margin-inline-end: .5em; color: var(--soft); font-variant-numeric: tabular-nums; text-decoration: none; }
main .joined > :is(p, .p)::before { content: none; }
.picture.seen { border: 0; padding: 0; }
.picture img { max-width: 100%; max-height: 90vh; vertical-align: bottom; }
sup[role=\"link\"] { cursor: pointer; color: var(--focus); text-decoration: underline 1px; }
.remark-sign, .remark-way { font: .7rem/1.3 system-ui, \"Liberation Sans\", sans-serif; padding: 0 .3em; border-radius: 3px; color: var(--focus); border-color: var(--focus); }
.remark-sign.done { color: var(--soft); border-color: var(--soft); border-style: dashed; }
.remark-sign { margin: 0 .1em; }
::highlight(remark) { background: color-mix(in srgb, var(--focus) 22%, var(--paper)); }
.remark-box { display: inline-block; width: 100%; margin: .3rem 0; padding: .5rem .8rem; border: 1px solid var(--focus); border-radius: 5px; background: var(--paper); color: var(--ink); font: .85rem/1.45 system-ui, \"Liberation Sans\", sans-serif; white-space: normal; cursor: default; }
.remark-said { display: block; overflow-wrap: anywhere; }
.remark-said.answer { padding-inline-start: 1em; border-inline-start: 2px solid var(--rule); }
.remark-text { color: var(--ink); }
.remark-own { display: block; font: .85rem/1.5 system-ui, \"Liberation Sans\", sans-serif; color: var(--soft); }
.orphans ul { margin: 0; padding-inline-start: 1.2em; font: .9rem/1.5 system-ui, \"Liberation Sans\", sans-serif; }
li .remarks { margin: .2rem 0; }
li .remarks > summary { font-weight: 600; }
li .remarks p { padding-inline-start: .6em; border-inline-start: 3px solid var(--focus); }

/* changes in it: each has its own direction */
ins, del, bdi { unicode-bidi: isolate; }
ins, del, main a { color: var(--author); text-decoration: underline 1px; text-underline-offset: .2em; }
del { text-decoration: line-through 1px; }
.move { text-decoration-style: double; }
del + ins { margin-left: .1em; }
sup { line-height: 0; }
main [data-revision] { cursor: pointer; border-radius: 2px; }
.mark, .cell, main a { font: .75rem system-ui, \"Liberation Sans\", sans-serif; padding: 0 .15em; }
.cell { float: right; border: 1px solid; margin-left: .3em; }
main a { border: 1px solid; margin-right: .4em; text-decoration: none; }
.props, .edge > * { position: absolute; left: -1.3rem; height: 1.6rem; border-left: 5px solid var(--author); font-size: 0; }
section > .props, .far > .props { position: relative; display: block; }
caption > .props { left: -1.8rem; height: 100%; }
td > .props { left: 0; top: 0; height: 100%; }
caption { display: block; position: absolute; height: 2rem; }
.edge ~ .edge > * { left: -.8rem; }
.edge ~ .edge ~ .edge > * { left: -.5rem; }
.edge > * { top: 0; height: 100%; }
main .edge > del { border-left-style: dashed; border-radius: 0; }
tr.deleted { background: color-mix(in srgb, var(--no) 7%, transparent); }
tr.inserted { background: color-mix(in srgb, var(--yes) 7%, transparent); }
main [aria-current] { outline: 2px solid var(--focus); outline-offset: 2px; }
main .text[aria-current] { background: color-mix(in srgb, var(--focus) 10%, transparent); }
main :is(ins[data-say=\"accept\"], del[data-say=\"reject\"]) { text-decoration: underline dotted 1px; }
main :is(ins[data-say=\"reject\"], del[data-say=\"accept\"]) { text-decoration: line-through 2px; }

/* the views without marks: what is decided is as decided; the rest is as if accepted, or as if rejected, and tinted */
main [data-seen] :is(ins, del) { color: inherit; text-decoration: none; }
main [data-seen] :is(.mark, .cell, .edge, .props, a, .gone) { display: none; }
main [data-seen] :is(del.text[data-verdict=\"accept\"], ins.text[data-verdict=\"reject\"]) { display: none; }
main [data-seen] :is(ins, del):not([data-verdict=\"accept\"], [data-verdict=\"reject\"]) { background: var(--open); }
main [data-seen] :is(ins, del)[data-verdict=\"disputed\"] { background: var(--disputed); }
main [data-seen] tr { background: none; }
main [data-seen] :is(tr, td).undecided { background: var(--open); }
#view-line { flex-basis: 100%; margin: 0; color: var(--soft); }
#view-line:empty { display: none; }

/* text that goes by what isn't decided leaves a sign, and so do a row and the end of a paragraph */
main [data-seen=\"final\"] del.text:not([data-verdict=\"accept\"], [data-verdict=\"reject\"]),
main [data-seen=\"original\"] ins.text:not([data-verdict=\"accept\"], [data-verdict=\"reject\"]) { font-size: 0; visibility: hidden; }
main [data-seen=\"final\"] del.text:not([data-verdict=\"accept\"], [data-verdict=\"reject\"]) > *,
main [data-seen=\"original\"] ins.text:not([data-verdict=\"accept\"], [data-verdict=\"reject\"]) > * { display: none; }
main [data-seen=\"final\"] del.text:not([data-verdict=\"accept\"], [data-verdict=\"reject\"])::before,
main [data-seen=\"original\"] ins.text:not([data-verdict=\"accept\"], [data-verdict=\"reject\"])::before { content: \"\\2038\"; visibility: visible; font-size: 1rem; background: inherit; padding: 0 .1em; }
main [data-seen] .mark:not([data-verdict=\"accept\"], [data-verdict=\"reject\"]) { display: inline; font-size: .75rem; }
main [data-seen] tr.gone.undecided { display: block; height: .5rem; overflow: hidden; visibility: hidden; }
main [data-seen] tr.gone.undecided > * { display: none; }
main [data-seen] tr.gone.undecided::before { content: \"\"; display: block; height: 100%; visibility: visible; background: repeating-linear-gradient(135deg, var(--open) 0 4px, var(--soft) 4px 5px); }

/* joined paragraphs are one, and one that may have gone says so */
main .joined { position: relative; margin: 0 0 .6rem; min-height: 1.6em; }
main .joined > :is(p, .p) { display: inline; font: inherit; }
main [data-seen] .doubt::after { content: \"In the written document this empty paragraph may be gone.\"; font: italic .8rem system-ui, \"Liberation Sans\", sans-serif; color: var(--soft); }

/* the list of changes */
aside { grid-area: list; display: flex; flex-direction: column; min-height: 0; overflow: auto; border-left: 1px solid var(--rule); background: var(--paper); font-size: .9rem; }
aside > ul { display: none; }
aside > ol { flex: 1 0 min(20rem, 75vh); overflow: auto; overflow-anchor: none; position: relative; margin: 0; padding: 0; list-style: none; border-top: 1px solid var(--rule); }
aside > ol > li { overflow: clip; padding: .6rem 1rem .7rem .8rem; border-bottom: 1px solid var(--rule); border-left: 4px solid transparent; cursor: pointer; }
aside > ol > .room { padding: 0; border: 0; cursor: default; }
aside li[aria-current] { border-left-color: var(--focus); background: color-mix(in srgb, var(--focus) 7%, transparent); }
aside li p { margin: 0 0 .2rem; color: var(--soft); overflow-wrap: anywhere; }
.head { display: flex; justify-content: space-between; gap: .6em; }
.head b, li .words, li .changed, li .clause { color: var(--ink); }
li :is(.clause, .place) { display: inline-block; margin-inline-end: .8em; }
.clause { font-weight: 600; }
.clause::before { content: \"clause \"; color: var(--soft); font-weight: 400; }
.who { color: var(--author); font-weight: 600; }
.verdict { white-space: nowrap; }
[data-verdict=\"accept\"] .verdict { color: var(--yes); }
:is([data-verdict=\"reject\"], [data-verdict=\"disputed\"]) .verdict { color: var(--no); }
.words :is(ins, del):not(.own) { opacity: .85; }
.words .own { color: var(--author); background: color-mix(in srgb, var(--author) 9%, transparent); border-radius: 2px; }
.words span.own { text-decoration: none; }
.buttons { display: flex; gap: .4rem; margin-top: .4rem; }
.buttons button { text-transform: capitalize; }
.buttons [aria-pressed=\"true\"] { background: var(--soft); border-color: var(--soft); color: var(--paper); }
.buttons [value=\"accept\"][aria-pressed=\"true\"] { background: var(--yes); border-color: var(--yes); }
.buttons [value=\"reject\"][aria-pressed=\"true\"] { background: var(--no); border-color: var(--no); }
/* the row of an edit, and the rows of its changes */
aside > ol > .edit { border-left-style: double; }
aside > ol > .of-edit { padding-left: 2.2rem; background: color-mix(in srgb, var(--soft) 6%, transparent); }
.differing { font-weight: 600; color: var(--no); }
.differing:empty { display: none; }
.buttons .open-edit { margin-inline-start: auto; text-transform: none; white-space: nowrap; }
.open-edit::before { content: \"\\25b8  \"; }
.open-edit[aria-expanded=\"true\"]::before { content: \"\\25be  \"; }
.buttons [aria-pressed=\"mixed\"] { background: repeating-linear-gradient(135deg, var(--paper) 0 4px, var(--rule) 4px 6px); }

/* questions, the summary and the help */
dialog { width: min(44rem, calc(100vw - 2rem)); max-height: calc(100dvh - 2rem); padding: 0; border: 1px solid var(--soft); border-radius: 8px; background: var(--paper); color: var(--ink); font-size: .95rem; box-shadow: 0 .5rem 2rem rgb(0 0 0 / .3); }
dialog[open] { display: flex; flex-direction: column; }
dialog::backdrop { background: rgb(0 0 0 / .45); }
dialog h2 { margin: 0; padding: 1rem 1.4rem .4rem; font: 600 1.15rem/1.3 system-ui, \"Liberation Sans\", sans-serif; color: var(--ink); }
dialog h3 { margin: .9rem 0 .1rem; font-size: .95rem; }
dialog p { margin: .4rem 0; overflow-wrap: anywhere; }
dialog small { color: var(--soft); font-size: .85rem; }
dialog strong { overflow-wrap: anywhere; }
.asking { overflow: auto; padding: 0 1.4rem .6rem; min-height: 0; }
.asking:focus-visible { outline-offset: -2px; }
.answers { display: flex; flex-wrap: wrap; justify-content: flex-end; gap: .6rem; padding: .8rem 1.4rem; border-top: 1px solid var(--rule); }
.answer { padding: .35rem .9rem; max-width: 100%; overflow-wrap: anywhere; }
.answer:focus-visible, .answer:first-child { font-weight: 600; }
.answer:first-child { background: var(--focus); border-color: var(--focus); color: var(--paper); }
.found { display: flex; gap: .6rem; align-items: baseline; margin: .5rem 0; }
.found > span { color: var(--ink); }

@media (max-height: 30rem) {
  dialog[open] { display: block; overflow: auto; }
  .answers { justify-content: flex-start; }
}

/* the summary */
.counts { display: flex; flex-wrap: wrap; gap: .6rem; margin: .8rem 0; }
.counts > div { flex: 1; min-width: 6rem; padding: .4rem .7rem; border: 1px solid var(--rule); border-radius: 5px; display: flex; flex-direction: column-reverse; }
.counts dt { color: var(--soft); font-size: .85rem; }
.counts dd { margin: 0; font-size: 1.4rem; font-weight: 600; font-variant-numeric: tabular-nums; }
.part { border-top: 1px solid var(--rule); padding: .4rem 0; }
.part > summary { font-weight: 600; }
.part ul { margin: .3rem 0; padding: 0; list-style: none; }
.part li { padding: .25rem 0 .25rem 3.4rem; position: relative; }
.part .words { margin: .1rem 0 0; color: var(--soft); font-family: Georgia, \"Liberation Serif\", serif; }
.number { position: absolute; left: 0; min-width: 2.8rem; text-align: right; font-variant-numeric: tabular-nums; }
.about { color: var(--soft); }

/* the help */
.help-keys { display: grid; grid-template-columns: repeat(auto-fill, minmax(17rem, 1fr)); gap: .3rem 1rem; margin: .5rem 0; }
.help-keys > div { display: flex; gap: .8rem; align-items: baseline; }
.help-keys dt { min-width: 2rem; text-align: right; }
.help-keys dd { margin: 0; }

/* narrow screens, and paper */
@media (max-width: 60rem) {
  body { grid: \"top\" auto \"text\" minmax(0, 1fr) \"list\" minmax(0, 1fr) / minmax(0, 1fr); }
  header { padding: .4rem .8rem; gap: .3rem .8rem; }
  main { padding: .6rem; }
  section { padding: 1rem 1rem 1rem 2rem; }
  aside { border-left: 0; border-top: 2px solid var(--rule); }
  .keys { display: none; }
}
/* enlarged, or on a telephone held sideways: the page is moved as a whole, and document and list have most of the height */
@media (max-height: 40rem) and (max-width: 40rem), (max-height: 20rem) {
  body { display: block; height: auto; }
  main { max-height: 85vh; min-height: 8rem; }
  aside { overflow: visible; }
  aside > ol { height: 85vh; min-height: 8rem; }
}
@media (max-height: 40rem) and (min-width: 40.01rem) {
  body { grid: \"top top\" auto \"text list\" minmax(0, 1fr) / minmax(0, 1fr) minmax(18rem, 40%); }
  header { padding: .3rem .8rem; gap: .2rem .8rem; }
  aside { border-top: 0; border-left: 1px solid var(--rule); }
  aside > ol { flex: 0 0 max(8rem, calc(85vh - 3rem)); }
}
@media print {
  body { display: block; height: auto; background: none; }
  header, aside, dialog, .remark-way { display: none; }
  #printed { display: block; font: .8rem/1.4 system-ui, \"Liberation Sans\", sans-serif; }
  main { overflow: visible; padding: 0; }
  section { border: 0; max-width: none; padding: 0 0 0 2.4rem; }
  .far { content-visibility: visible; }
  main [data-revision][aria-current] { outline: 0; background: none; }
}
";

/// The script of the page.
pub const SCRIPT: &str =
    "// What the page does: choosing, deciding and filtering changes, three views, and saving a journal.
//
// The document and the list of changes come with the page. All else is made here, from texts alone: nothing is ever
// read as markup. A row of the list is filled in when it is nearly seen, so that a page with many changes opens at once.
\"use strict\";

const { document: digest, title = \"\" } = document.body.dataset;
const main = document.querySelector(\"main\");
const aside = document.querySelector(\"aside\");
const list = aside.querySelector(\"ol\");
const rows = Array.from(list.children);
const sequences = new Map(Array.from(aside.querySelectorAll(\":scope > ul:not([class]) > li\"), (it) => [it.textContent, Number(it.dataset.sequence)]));
// The greatest sequence number, and the most bytes of a journal.
const LARGEST = 4294967295;
const LARGEST_JOURNAL = 67108864;
const WORDS = [\"accept\", \"reject\", \"withdraw\"];
const LETTERS = { accept: \"a\", reject: \"r\", withdraw: \"w\" };
const DONE = { accept: \"accepted\", reject: \"rejected\", withdraw: \"withdrawn\" };
const ORDERS = { accept: \"Accept\", reject: \"Reject\", withdraw: \"Withdraw\" };
const SPELLED = { \" \": \"space\", \"\\u00a0\": \"no-break space\", \"\\u202f\": \"narrow no-break space\", \"\\u00ad\": \"soft hyphen\", \"\\u200b\": \"zero-width space\" };

// A new element with properties or attributes, and with texts or elements inside.
function make(name, properties = {}, ...inside) {
  const made = document.createElement(name);
  for (const [key, value] of Object.entries(properties)) {
    if (key in made) made[key] = value;
    else made.setAttribute(key, value);
  }
  made.append(...inside);
  return made;
}

// The items of the lists that came for this script alone, which are taken out of the page: those of each list with its part.
function takenItems(selector) {
  return Array.from(aside.querySelectorAll(\":scope > \" + selector), (it) => {
    it.remove();
    return Object.assign(Array.from(it.children), { part: it.dataset.part });
  });
}

function labelled(text, field) {
  return make(\"label\", { htmlFor: field.id }, make(\"span\", { textContent: text }), field);
}

const KINDS = {
  ins: \"inserted\", del: \"deleted\", move: \"moved\", \"move-from\": \"moved away\", \"move-to\": \"moved here\",
  \"mark-ins\": \"paragraph end inserted\", \"mark-del\": \"paragraph end deleted\",
  \"mark-from\": \"paragraph end moved away\", \"mark-to\": \"paragraph end moved here\",
  \"row-ins\": \"row inserted\", \"row-del\": \"row deleted\", \"cell-ins\": \"cell inserted\", \"cell-del\": \"cell deleted\",
  \"run-props\": \"text formatted\", \"para-props\": \"paragraph formatted\", \"sect-props\": \"page layout changed\",
  \"table-props\": \"table formatted\", \"except-props\": \"table format of a row changed\", \"row-props\": \"row formatted\",
  \"cell-props\": \"cell formatted\",
};
// What the program says of a change of format that a reader doesn't see.
const LANGUAGE = \"language only\";

// What is known of each change by its place, read once.

const kindsOf = rows.map((row) => row.dataset.kind);
const authorsOf = rows.map((row) => row.dataset.author);
const verdictsOf = rows.map((row) => row.dataset.verdict);
const lockedAt = rows.map((row) => row.dataset.locked === \"yes\");
// The clause of each change, its place where that isn't the document, and what a change of properties changes, in words.
const clausesOf = rows.map((row) => saidIn(row, \"clause\"));
const placeNames = rows.map((row) => saidIn(row, \"place\"));
const changesOf = rows.map((row) => saidIn(row, \"changed\"));

// The places of the changes that hold text which is hidden, stand in such text, or make a text hidden or seen.
const isHiddenAt = new Set();
for (const it of main.querySelectorAll(\".hidden\")) for (const at of changesRound(it)) isHiddenAt.add(at);
changesOf.forEach((said, at) => /(^|; )hidden: /.test(said) && isHiddenAt.add(at));

// The places of the changes that hold an element, or that stand in it.
function changesRound(element) {
  const found = Array.from(element.querySelectorAll(\"[data-revision]\"));
  for (let it = element.parentElement; it && it !== main; it = it.parentElement) {
    if (it.matches(\"ins.text, del.text\")) found.push(it);
    // (a change of the text's format that stands in a paragraph itself is of other text, or of the paragraph's end)
    if (it.matches(\"p, .p, td\")) found.push(...Array.from(it.querySelectorAll(\":scope > :is(.props, .cell)\")).filter((of) => kindsOf[of.dataset.revision - 1] !== \"run-props\"));
    if (it.matches(\"tr\")) found.push(...it.querySelectorAll(\":scope > .edge > *\"));
    if (it.matches(\"table\")) found.push(...it.querySelectorAll(\":scope > caption > .props\"));
  }
  return found.map((it) => Number(it.dataset.revision) - 1);
}

// What a row says in an element of this class, or nothing.
function saidIn(row, name) {
  for (const it of row.children) if (it.className === name) return it.textContent;
  return \"\";
}

// Edits: changes that were one act are one row of the list, with one decision. It opens to its single changes, which are decided,
// undone, filtered and counted one by one as ever.

const together = make(\"input\", { type: \"checkbox\", id: \"together\", checked: true });
// The places of each edit of several changes, by the place of each of them.
const editAt = rows.map(() => null);
const opened = new Set();
const editRows = new Map();

for (const edit of gatheredBy(rows.map((row) => row.dataset.edit))) if (edit.length > 1) for (const at of edit) editAt[at] = edit;

// Places with one value, together.
function gatheredBy(values) {
  const found = new Map();
  values.forEach((value, at) => {
    if (value === undefined) return;
    if (found.has(value)) found.get(value).push(at);
    else found.set(value, [at]);
  });
  return found.values();
}

// Lines of the list: the place of a change that has its own row, and for the row of an edit the complement of its first place.

function isEditLine(line) {
  return line < 0;
}

// The lines for these places, which ascend: an edit of which several changes are shown is one, and those of an open one follow it.
function linesFor(places) {
  if (!together.checked) return places;
  const lines = [];
  const met = new Set();
  for (const at of places) {
    const edit = editAt[at];
    if (!edit) lines.push(at);
    if (!edit || met.has(edit)) continue;
    met.add(edit);
    const shown = edit.filter(isShown);
    if (shown.length > 1) lines.push(~edit[0]);
    if (shown.length === 1 || opened.has(edit)) for (const it of shown) lines.push(it);
  }
  return lines;
}

// The places of a line: of an edit those that the filter leaves.
function placesOfLine(line) {
  return isEditLine(line) ? editAt[~line].filter(isShown) : [line];
}

function rowOfLine(line) {
  if (!isEditLine(line)) return rows[line];
  if (!editRows.has(~line)) editRows.set(~line, make(\"li\", { id: \"edit-\" + (~line + 1), className: \"edit\" }));
  return editRows.get(~line);
}

function lineOfRow(row) {
  return row.matches(\".edit\") ? ~(Number(row.id.slice(\"edit-\".length)) - 1) : numberOf(row) - 1;
}

// The line in which a change is shown now.
function lineAt(at) {
  const edit = together.checked ? editAt[at] : null;
  return edit && !opened.has(edit) && edit.filter(isShown).length > 1 ? ~edit[0] : at;
}

function isOpenLine(line) {
  return isEditLine(line) && opened.has(editAt[~line]);
}

// Whether a line has a change of which this holds. Those of an open edit have lines of their own.
function lineHolds(line, holds) {
  return isEditLine(line) ? !isOpenLine(line) && placesOfLine(line).some(holds) : holds(line);
}

// The line of the edit that a row is of, or that of its change where that is one by itself.
function editLineOf(row) {
  const line = lineOfRow(row);
  return isEditLine(line) || !editAt[line] || !lineIndex.has(~editAt[line][0]) ? line : ~editAt[line][0];
}

// Opens an edit, or closes it.
function openLine(line) {
  if (!isEditLine(line)) return tell(\"Change \" + (line + 1) + \" stands by itself.\");
  const edit = editAt[~line];
  if (!opened.delete(edit)) opened.add(edit);
  showAnew();
  if (current) current.focus({ preventScroll: true });
}

// Chooses a change in its own row: an edit that is closed is opened for it.
function chooseChange(at) {
  if (isEditLine(lineAt(at))) openLine(lineAt(at));
  choose(rows[at]);
}

// The row of an edit

function fillEdit(row) {
  if (row.hasAttribute(\"tabindex\")) return;
  row.tabIndex = -1;
  const line = lineOfRow(row);
  const places = placesOfLine(line);
  const [first] = places;
  const { author, date } = rows[first].dataset;
  row.dataset.author = author;
  set(row, \"verdict\", places.every((at) => verdictsOf[at] === verdictsOf[first]) ? verdictsOf[first] : \"\");
  row.replaceChildren(
    make(\"p\", { className: \"head\" },
      make(\"span\", {}, make(\"b\", { textContent: rangesInWords(places) }), \" \" + editInWords(places) + \" by \", whoOf(first), date === \"-\" ? \"\" : \", \" + date.slice(0, 10)),
      make(\"span\", { className: \"verdict\", textContent: commonVerdict(places) })),
    ...[[\"clause\", clausesOf], [\"place\", placeNames], [\"changed\", changesOf]].flatMap(([className, said]) =>
      distinct(places.map((at) => said[at])).slice(0, className === \"changed\" ? 3 : 1).map((text) => make(\"p\", { className }, make(\"bdi\", { textContent: text })))),
    excerptOf(places),
    ...saysOnAll(places),
    ...remarksInRow(places),
    make(\"p\", { className: \"differing\" }),
    make(\"div\", { className: \"buttons\", role: \"group\", ariaLabel: \"Edit of \" + places.length + \" changes\" },
      ...(places.every((at) => lockedAt[at]) ? [] : Object.keys(LETTERS).map((value) => make(\"button\", { type: \"button\", value, textContent: value }))),
      make(\"button\", { type: \"button\", className: \"open-edit\", ariaExpanded: String(isOpenLine(line)), textContent: many(places.length, \"change\") })));
  pressEdit(row);
}

function distinct(texts) {
  return Array.from(new Set(texts)).filter((it) => it);
}

// Numbers as ranges, a few at most.
function rangesInWords(places) {
  const ranges = [];
  for (const at of places) {
    const last = ranges.at(-1);
    if (last && last[1] === at) last[1] = at + 1;
    else ranges.push([at + 1, at + 1]);
  }
  return ranges.slice(0, 3).map(([from, to]) => (from === to ? from : from + \"\\u2013\" + to)).join(\", \") + (ranges.length > 3 ? \" \\u2026\" : \"\");
}

// What an edit does, in words: a replacement, or how many there are of each kind.
function editInWords(places) {
  const kinds = counted(places.map((at) => kindsOf[at]));
  if (kinds.length === 2 && kinds.every(([kind, count]) => count === 1 && (kind === \"ins\" || kind === \"del\"))) return \"replaced\";
  return kinds.map(([kind, count]) => (count > 1 ? count + \" \\u00d7 \" : \"\") + KINDS[kind]).join(\", \");
}

function commonVerdict(places) {
  const verdicts = distinct(places.map((at) => verdictsOf[at]));
  return verdicts.length > 1 ? \"verdicts differ\" : verdicts[0] === \"open\" ? \"\" : DONE[verdicts[0]] || verdicts[0];
}

// What reviewers say in the journals of this page, each said once, with how many of the changes it is on.
function saysOnAll(places) {
  const said = places.flatMap((at) => saysOn(at).map((it) => JSON.stringify(it)));
  return counted(said).map(([text, count]) => {
    const { who, word, rank } = JSON.parse(text);
    return make(\"p\", { \"data-word\": word }, isolated(who), \": \" + DONE[word] + (rank ? \" with rank \" + rank : \"\") + (count < places.length ? \" on \" + count + \" of \" + places.length : \"\"));
  });
}

// Shows what is decided of an edit: on its buttons where it is one word, and in words where its changes differ.
function pressEdit(row) {
  if (!row.hasAttribute(\"tabindex\")) return;
  const places = placesOfLine(lineOfRow(row)).filter((at) => !lockedAt[at]);
  const found = new Map(counted(places.map((at) => words[at])));
  const all = [...Object.keys(DONE), \"\"].filter((it) => found.has(it)).map((it) => [it, found.get(it)]);
  for (const button of row.querySelectorAll(\"button[value]\")) {
    const count = places.filter((at) => words[at] === button.value).length;
    button.ariaPressed = count === 0 ? \"false\" : count === places.length ? \"true\" : \"mixed\";
    if (button.value === \"withdraw\") button.disabled = !places.some((at) => words[at] === \"withdraw\" || hasEarlier(at));
  }
  set(row, \"say\", all.length === 1 ? all[0][0] : \"\");
  const locked = placesOfLine(lineOfRow(row)).length - places.length;
  row.querySelector(\".differing\").textContent =
    (all.length > 1 ? \"Its changes differ: \" + all.map(([word, count]) => count + \" \" + (DONE[word] || \"not decided\")).join(\", \") + \".\" : \"\") +
    (locked ? (all.length > 1 ? \" \" : \"\") + many(locked, \"change\") + \" locked.\" : \"\");
}

// What a button or a key does with an edit: its word on all that isn't decided, or, where all is decided, on all; none where all have
// that word already. Where words that differ would be replaced the reviewer is asked.
async function decideEdit(row, word) {
  const line = lineOfRow(row);
  const name = \"Edit \" + rangesInWords(placesOfLine(line));
  if (!lineIndex.has(line)) return tell(\"This edit is hidden by the filter: the key j goes to the next one.\");
  const open = placesOfLine(line).filter((at) => !lockedAt[at]);
  if (!open.length) return tell(name + \" is locked.\");
  const places = word === \"withdraw\" ? open.filter((at) => words[at] === word || hasEarlier(at)) : open;
  if (!places.length) return tell(nothingToWithdraw(name));
  const isTaken = places.every((at) => words[at] === word);
  const undecided = places.filter((at) => !words[at]);
  const other = places.filter((at) => words[at] && words[at] !== word);
  if (!undecided.length && new Set(places.map((at) => words[at])).size > 1 && (await askToReplace(word, other, [])) !== \"all\") return tell(\"Nothing was changed.\");
  const next = isTaken ? \"\" : word;
  const chosen = undecided.length ? undecided : isTaken ? places : other;
  act(\"edit of \" + chosen.length + \" \" + (DONE[next] || \"not decided\"), chosen.map((at) => [at, next]));
  tell(name + \": \" + many(chosen.length, \"change\") + \" \" + (DONE[next] || \"not decided\") + \".\" + (undecided.length && undecided.length < places.length ? \" The others keep their words.\" : \"\"));
  if (next && advance.checked) goOn(line);
}

// The bars around the document and the list: what a reviewer presses and types in, and what they are told.

const tally = make(\"p\", { id: \"tally\" });
const line = make(\"p\", { id: \"line\", role: \"status\" });
const undo = make(\"button\", { type: \"button\", id: \"undo\", textContent: \"Undo\", disabled: true, title: \"Undo (u)\" });
const known = make(\"datalist\", { id: \"known\" });
const person = make(\"input\", { id: \"person\", type: \"text\", autocomplete: \"name\", spellcheck: false, \"aria-describedby\": \"line\" });
const save = make(\"button\", { type: \"button\", id: \"save\", textContent: \"Save my journal\" });
const openButton = make(\"button\", { type: \"button\", id: \"open\", textContent: \"Open my journal\" });
const file = make(\"input\", { type: \"file\", id: \"file\", hidden: true, ariaLabel: \"Open my journal\" });
const help = make(\"button\", { type: \"button\", id: \"help\", textContent: \"?\", ariaLabel: \"Help\", title: \"Help (?)\" });
const search = make(\"input\", { type: \"search\", id: \"search\", spellcheck: false, placeholder: \"words, author, number\" });
const advance = make(\"input\", { type: \"checkbox\", id: \"advance\", checked: true });
const [authors, kinds, states] = [\"author\", \"kind\", \"state\"].map((id) => make(\"select\", { id }));
const [acceptAll, rejectAll] = [\"accept-all\", \"reject-all\"].map((id) => make(\"button\", { type: \"button\", id }));

function build() {
  person.setAttribute(\"list\", \"known\");
  const short = [[\"j\", \"next\"], [\"k\", \"back\"], [\"a\", \"accept\"], [\"r\", \"reject\"], [\"e\", \"edit\"], [\"?\", \"help\"]];
  document.body.prepend(make(\"header\", {}, make(\"h1\", {}, ...(title ? [isolated(title), \": changes to decide\"] : [\"Changes to decide\"])), tally, views, openButton, help),
    make(\"p\", { id: \"printed\" }));
  aside.prepend(make(\"div\", { className: \"sign\" }, labelled(\"Your name\", person), known, save, file),
    make(\"div\", { className: \"told\" }, line, undo),
    make(\"details\", { className: \"choose\", open: innerWidth > 960 }, make(\"summary\", { textContent: \"Filter, and decide all that is left\" }),
      make(\"div\", { className: \"filter\" }, labelled(\"Author\", authors), labelled(\"Kind\", kinds), labelled(\"State\", states), labelled(\"Search\", search), labelled(\"Go on by itself\", advance), labelled(\"Edits as one row\", together), acceptAll, rejectAll)),
    make(\"p\", { className: \"keys\" }, ...short.flatMap(([key, text]) => [make(\"kbd\", { textContent: key }), \" \" + text + \" \"])));
  offerFilters();
  main.setAttribute(\"aria-label\", \"Document\");
  main.tabIndex = list.tabIndex = 0;
  list.setAttribute(\"role\", \"list\");
  list.setAttribute(\"aria-label\", \"List of changes\");
  colour(Array.from(new Set(authorsOf)));
}

// A colour for each of the first authors.
function colour(names) {
  const colours = new CSSStyleSheet();
  names.slice(0, 64).forEach((it, place) =>
    colours.insertRule('[data-author=\"' + CSS.escape(it) + '\"] { --author: var(--author-' + ((place % 8) + 1) + \"); }\"));
  document.adoptedStyleSheets = [colours];
}

function tell(text, isFault = false) {
  line.textContent = text;
  line.classList.toggle(\"fault\", isFault);
}

// Says on paper what view was printed, of whom and when.
function sayPrinted() {
  const view = document.body.dataset.view;
  const who = reviewer ? \" as decided on this page by \" + spelled(reviewer) : \" as decided on this page\";
  document.querySelector(\"#printed\").textContent =
    (title ? title + \": \" : \"\") + \"view \\\"\" + view + \"\\\"\" + who + \", \" + tally.textContent + \". Printed on \" + dated(Date.now()) + \".\";
}

// Dialogs: questions with their answers, one at a time.

let asked = Promise.resolve(\"\");

// Asks, and gives the value of the answer that is pressed; the Escape key gives the empty value. An answer is a value and
// its words. The first one has the keyboard, unless there is more to be read: then that has it.
function ask(title, inside, answers, isLong = false) {
  asked = asked.then(() => new Promise((resolve) => openDialog(title, inside, answers, isLong, resolve)));
  return asked;
}

function openDialog(title, inside, answers, isLong, resolve) {
  const buttons = answers.map(([value, textContent], place) =>
    make(\"button\", { type: \"button\", value, textContent, autofocus: place === 0 && !isLong, className: \"answer\" }));
  const dialog = make(\"dialog\", { \"aria-labelledby\": \"asked\" }, make(\"h2\", { id: \"asked\", textContent: title }),
    make(\"div\", { className: \"asking\", tabIndex: isLong ? 0 : -1, autofocus: isLong, role: \"group\", ariaLabel: title }, ...inside), make(\"div\", { className: \"answers\" }, ...buttons));
  dialog.addEventListener(\"click\", ({ target }) => target.matches(\".answer\") && dialog.close(target.value));
  dialog.addEventListener(\"close\", () => {
    dialog.remove();
    resolve(dialog.returnValue);
  });
  document.body.append(dialog);
  dialog.showModal();
}

// Closes the dialog that is open, as the Escape key does.
function closeDialog() {
  const dialog = document.querySelector(\"dialog[open]\");
  if (dialog) dialog.close(\"\");
}

function paragraph(...inside) {
  return make(\"p\", {}, ...inside);
}

// A name, so that its letters turn nothing around it.
function isolated(name) {
  return make(\"bdi\", { textContent: spelled(name) || \"no name\" });
}

function dated(time) {
  return time ? new Date(time).toLocaleString(\"en-GB\", { dateStyle: \"long\", timeStyle: \"short\" }) : \"an unknown time\";
}

// Numbers of the changes at places, a few at most.
function numbersInWords(places) {
  const few = places.slice(0, 12).map((at) => at + 1).join(\", \");
  return few + (places.length > 12 ? \" and \" + (places.length - 12) + \" more\" : \"\");
}

// Signs for characters that can't be seen, or that turn the text around them: each stands where its character is, and
// what such a character does to others ends with it.

const UNSEEN = /[\\r\\u0080-\\u009f\\u00ad\\u034f\\u061c\\u115f\\u1160\\u17b4\\u17b5\\u180b-\\u180f\\u200b-\\u200f\\u2028-\\u202e\\u2060-\\u206f\\u3164\\ufeff\\uffa0\\ufff9-\\ufffb]|[\\u{e0000}-\\u{e01ef}]/u;
const UNSEEN_NAMES = {
  \"\\r\": [\"CR\", \"carriage return\"], \"\\u00ad\": [\"SHY\", \"soft hyphen\"], \"\\u061c\": [\"ALM\", \"Arabic letter mark\"],
  \"\\u200b\": [\"ZWSP\", \"space without width\"], \"\\u200c\": [\"ZWNJ\", \"no joining\"], \"\\u200d\": [\"ZWJ\", \"joining\"],
  \"\\u200e\": [\"LRM\", \"left-to-right mark\"], \"\\u200f\": [\"RLM\", \"right-to-left mark\"],
  \"\\u2028\": [\"LS\", \"line separator\"], \"\\u2029\": [\"PS\", \"paragraph separator\"],
  \"\\u202a\": [\"LRE\", \"left-to-right from here\"], \"\\u202b\": [\"RLE\", \"right-to-left from here\"], \"\\u202c\": [\"PDF\", \"end of a direction\"],
  \"\\u202d\": [\"LRO\", \"all left-to-right from here\"], \"\\u202e\": [\"RLO\", \"all right-to-left from here\"],
  \"\\u2060\": [\"WJ\", \"no break\"], \"\\u2066\": [\"LRI\", \"left-to-right from here, apart\"], \"\\u2067\": [\"RLI\", \"right-to-left from here, apart\"],
  \"\\u2068\": [\"FSI\", \"a text apart from here\"], \"\\u2069\": [\"PDI\", \"end of a text apart\"], \"\\ufeff\": [\"BOM\", \"no break, without width\"],
};
// So many marks on one letter reach into the lines around it.
const STACKED = /\\p{M}{4}/u;

function codeOf(character) {
  return \"U+\" + character.codePointAt(0).toString(16).toUpperCase().padStart(4, \"0\");
}

function signOf(character) {
  const [short, words] = UNSEEN_NAMES[character] || [codeOf(character), \"a character that can't be seen\"];
  return make(\"span\", { className: \"unseen\", role: \"img\", title: codeOf(character) + \", \" + words, ariaLabel: words, \"data-sign\": short }, character);
}

// A text with signs, as nodes. (Names are spelled out as `isolated` does it.)
function signed(text) {
  const nodes = [];
  let rest = text;
  for (let found = UNSEEN.exec(rest); found; found = UNSEEN.exec(rest)) {
    nodes.push(rest.slice(0, found.index), signOf(found[0]));
    rest = rest.slice(found.index + found[0].length);
  }
  return [...nodes, rest];
}

// Puts signs into a part of the document.
function showUnseen(part) {
  if (!UNSEEN.test(part.textContent) && !STACKED.test(part.textContent)) return;
  const walker = document.createTreeWalker(part, NodeFilter.SHOW_TEXT);
  const found = [];
  for (let node = walker.nextNode(); node; node = walker.nextNode()) {
    if (STACKED.test(node.data)) node.parentElement.closest(\"p, .p, td, section\").classList.add(\"stacked\");
    if (UNSEEN.test(node.data) && !node.parentElement.matches(\".unseen\")) found.push(node);
  }
  for (const node of found) node.replaceWith(...signed(node.data));
}

// The three views of the document, and what becomes of it in those without marks.

const views = make(\"fieldset\", {}, make(\"legend\", { textContent: \"View\" }), ...[\"marks\", \"final\", \"original\"].map((value) =>
  make(\"label\", {}, make(\"input\", { type: \"radio\", name: \"view\", value, checked: value === \"marks\" }), value)));

// The elements with lists in which something may be joined or go, their lists, and the groups that are joined in a list, by
// their first paragraph.
let withLists = new Set();
const listsOf = new Map();
const joinedOf = new Map();

views.addEventListener(\"change\", ({ target }) => seeAs(target.value));

function viewNow() {
  return document.body.dataset.view;
}

function seeAs(view) {
  document.body.dataset.view = view;
  seeParts();
  if (view === \"marks\") Array.from(joinedOf.keys(), takeApart);
  else {
    withLists = new Set(Array.from(main.querySelectorAll(\".mark, .row, .cell\"), listedElement));
    seeLists(withLists);
  }
  captionView();
  seeNumbers();
}

// The element whose lists a change may change.
function listedElement(member) {
  const block = member.closest(member.matches(\".row, .cell\") ? \"table\" : \"p, .p\") || member;
  return block.parentElement.closest(\"td, .box, section\");
}

function seeLists(elements) {
  for (const it of elements) {
    if (!listsOf.has(it)) listsOf.set(it, listsIn(it));
    for (const list of listsOf.get(it)) seeList(list, REST[viewNow()]);
  }
}

// Shows what both passes leave of a list.
function seeList(list, rest) {
  const { left, doubts } = leftOf(list, rest);
  const stay = new Set(left.flat());
  for (const node of list) {
    if (isElement(node, \"table\")) seeTable(node, rest);
    if (!isElement(node, PARAGRAPH)) continue;
    node.classList.toggle(\"gone\", !stay.has(node));
    node.classList.toggle(\"doubt\", doubts.has(node));
  }
  seeJoined(list, left.filter((group) => group.filter((it) => isElement(it, PARAGRAPH)).length > 1));
}

function seeTable(table, rest) {
  const [first, second] = passes(rest);
  const goes = goesBy((member) => cuts(member, first(member) || second(member)));
  table.classList.toggle(\"gone\", goes.table(table));
  for (const row of table.rows) {
    const its = [row, ...row.cells];
    for (const it of its) {
      const members = membersOf(it);
      it.classList.toggle(\"gone\", (it === row ? goes.row : goes.cell)(it));
      it.classList.toggle(\"undecided\", members.some((member) => !first(member)));
    }
  }
}

// Joined paragraphs stand in one element that looks like the last of them.

function seeJoined(list, groups) {
  const former = joinedOf.get(list) || new Map();
  const wanted = new Map(groups.map((group) => [group[0], group]));
  for (const [start, it] of former) if (!isSame(it.group, wanted.get(start))) undoJoin(it), former.delete(start);
  for (const [start, group] of wanted) if (!former.has(start)) former.set(start, join(group));
  joinedOf.set(list, former);
}

function isSame(one, other) {
  return other !== undefined && one.length === other.length && one.at(-1) === other.at(-1);
}

// What is between the paragraphs goes in with them, but for line ends of the page itself. Some come from a part that is behind,
// and some go back to one that isn't, so what they show is drawn anew.
function join(group) {
  const last = group.at(-1);
  const around = make(\"div\", { className: \"joined\" });
  const froms = new Map();
  group[0].before(around);
  for (const node of group.filter((it) => it.nodeType !== Node.TEXT_NODE)) {
    const parent = node.parentNode;
    froms.set(parent, [...(froms.get(parent) || []), node]);
    around.append(node);
    unhead(node);
  }
  if (last.dataset.style) around.dataset.style = last.dataset.style;
  around.dir = last.dir;
  head(around);
  drawIn(around);
  return { group, around, froms };
}

function undoJoin({ group, around, froms }) {
  drawIn(around);
  const [[, ahead], ...others] = Array.from(froms);
  around.replaceWith(...ahead);
  for (const [parent, nodes] of others) parent.prepend(...nodes);
  group.filter((it) => isElement(it, PARAGRAPH)).forEach(head);
}

function takeApart(list) {
  joinedOf.get(list).forEach(undoJoin);
  joinedOf.delete(list);
}

// What a view shows, in a line above the document.

const viewLine = make(\"p\", { id: \"view-line\", role: \"status\" });

const SEEN_AS = { final: [\"The text that is written once the rest is accepted\", \"accepted\"], original: [\"The text that is written once the rest is rejected\", \"rejected\"] };

function captionView() {
  const [text, rest] = SEEN_AS[viewNow()] || [];
  const verdicts = text ? rows.map((_, at) => verdictAt(at)) : [];
  const [open, disputed] = [\"open\", \"disputed\"].map((it) => verdicts.filter((verdict) => verdict === it).length);
  const some = [open ? open + \" open\" : \"\", disputed ? disputed + \" disputed\" : \"\"].filter(Boolean).join(\" and \");
  viewLine.textContent = !text ? \"\" : text + \". \" + (some ? \"Tinted: \" + some + \", shown as \" + rest + \".\" : \"All is decided.\") +
    (!text || main.querySelector(\"[data-story]\") ? \"\" : \" Around content controls paragraphs may be joined otherwise.\") +
    (main.querySelector(\".doubt\") ? \" Where it isn't known whether an empty paragraph stays, it says so.\" : \"\") +
    (!text || isCounting ? \"\" : \" The numbers of clauses are shown with marks alone.\");
}

// The document: its stories, its headings, and where a change is in it.

// What is far from sight costs nothing: of a long story so many blocks are a group, and of a long table so many rows.
const FAR = 100;

// It is taken out of the page for that: a browser looks at all that follows a block that is moved.
function arrange() {
  document.querySelector(\"header\").append(viewLine);
  const { scrollTop, nextSibling } = main;
  main.remove();
  readNumbers();
  linkNotes();
  showImages();
  placeRemarks();
  for (const it of main.querySelectorAll('[data-style^=\"Heading\"], [data-style=\"Title\"]')) head(it);
  nameStories();
  for (const edge of Array.from(main.querySelectorAll(\"td.edge\"))) bringIn(edge);
  for (const story of main.children) group(story, () => make(\"div\", { className: \"far\" }));
  for (const table of Array.from(main.querySelectorAll(\"tbody\"))) if (table.rows.length > 2 * FAR) groupRows(table);
  nextSibling.before(main);
  main.scrollTop = scrollTop;
  watchParts();
}

// What stands at the edge of a row is no cell: it goes into the first one.
function bringIn(edge) {
  const row = edge.parentNode;
  const made = make(\"span\", { className: \"edge\" }, ...edge.childNodes);
  for (const it of made.querySelectorAll(\"ins, del\")) row.classList.add(it.localName === \"ins\" ? \"inserted\" : \"deleted\");
  let cell = edge.nextElementSibling;
  while (cell && cell.matches(\".edge\")) cell = cell.nextElementSibling;
  if (!cell) return;
  const others = cell.querySelectorAll(\":scope > .edge\");
  if (others.length) others[others.length - 1].after(made);
  else cell.prepend(made);
  edge.remove();
}

function group(parent, makeGroup) {
  const nodes = Array.from(parent.childNodes);
  if (nodes.length <= 2 * FAR) return;
  for (let at = 0; at < nodes.length; at += FAR) {
    const made = makeGroup();
    made.append(...nodes.slice(at, at + FAR));
    parent.append(made);
  }
}

function groupRows(body) {
  body.parentNode.classList.add(\"long\");
  const rest = Array.from(body.childNodes).slice(FAR);
  for (let at = rest.length; at > 0; at -= FAR) {
    const made = make(\"tbody\", { className: \"far\" });
    made.append(...rest.slice(Math.max(0, at - FAR), at));
    body.after(made);
  }
}

// Of several stories of one sort the heading of each has its number, and the name of its part is at hand.
function nameStories() {
  const stories = Array.from(main.querySelectorAll(\":scope > [data-story]\"));
  const counts = new Map(counted(stories.map((it) => it.dataset.story)));
  const named = {};
  for (const story of stories) {
    const sort = story.dataset.story;
    named[sort] = (named[sort] || 0) + 1;
    const title = story.querySelector(\":scope > h2\");
    if (!title) continue;
    title.title = story.dataset.part;
    if (sort !== \"document\" && counts.get(sort) > 1) title.append(\" \" + named[sort]);
  }
}

// A paragraph with the style of a heading is one.
function head(paragraph) {
  const style = paragraph.dataset.style || \"\";
  if (!/^(Heading|Title$)/.test(style)) return;
  paragraph.setAttribute(\"role\", \"heading\");
  paragraph.setAttribute(\"aria-level\", Math.min(6, 2 + (parseInt(style.slice(7), 10) || 0)));
}

function unhead(paragraph) {
  paragraph.removeAttribute(\"role\");
  paragraph.removeAttribute(\"aria-level\");
}

// The place of the change that an element of the document is of.
function placeOf(member) {
  return Number(member.getAttribute(\"data-revision\")) - 1;
}

let places = null;

// The elements of the change of a row, or of those of an edit.
function placesOf(row) {
  return placesOfLine(lineOfRow(row)).flatMap(placesAt);
}

// The elements of the change at a place.
function placesAt(at) {
  if (!places) {
    places = new Array(rows.length);
    for (const it of main.querySelectorAll(\"[data-revision]\")) {
      const at = placeOf(it);
      if (places[at]) places[at].push(it);
      else places[at] = [it];
    }
  }
  return places[at] || [];
}

// Shows where a change is in the document. Where a view has taken its text away, what is nearest to it is shown.
function showPlace(row) {
  const [place] = placesOf(row);
  if (!place) return;
  for (let it = place.closest(\"details\"); it; it = it.parentElement.closest(\"details\")) it.open = true;
  comeNear(partOf(place));
  let seen = place;
  while (seen !== main && !seen.getClientRects().length) seen = seen.previousElementSibling || seen.parentElement;
  if (seen !== main) seen.scrollIntoView({ block: \"center\" });
}

// Clause numbers before paragraphs: with marks those with which the page came, and in the other views the same counting over the
// paragraphs that are left.

// The greatest length of a number, in bytes.
const LONGEST_NUMBER = 200;
const LEVELS = 9;
const ROMAN = [[\"M\", 1000], [\"CM\", 900], [\"D\", 500], [\"CD\", 400], [\"C\", 100], [\"XC\", 90], [\"L\", 50], [\"XL\", 40], [\"X\", 10], [\"IX\", 9], [\"V\", 5], [\"IV\", 4], [\"I\", 1]];
const NO_LEVEL = { list: \"\", start: 0, again: false, restart: null, format: \"decimal\", width: 0, isLegal: false, hasPicture: false, text: \"\" };

// The paragraphs with a number: each with its num, its level and its text, and whether a section ends with it.
let numbered = [];
const levels = new Map();
// Whether counting here comes to the numbers with which the page came; else there are none but those.
let isCounting = true;
let numbering = 0;

function readNumbers() {
  for (const { dataset, textContent } of takenItems(\"ol.levels\").flat())
    levels.set(dataset.num + \" \" + dataset.level, {
      list: dataset.list, start: Number(dataset.start), again: \"again\" in dataset, restart: \"restart\" in dataset ? Number(dataset.restart) : null,
      format: dataset.format, width: Number(dataset.width || 0), isLegal: \"legal\" in dataset, hasPicture: \"picture\" in dataset, text: textContent,
    });
  const stories = Array.from(main.querySelectorAll(\":scope > [data-story]\"));
  for (const items of takenItems(\"ol.numbers\")) {
    while (stories.length && stories[0].dataset.part !== items.part) stories.shift();
    const paragraphs = stories.length ? stories.shift().querySelectorAll(PARAGRAPH) : [];
    for (const { dataset, textContent } of items) {
      const paragraph = paragraphs[dataset.paragraph - 1];
      if (paragraph) numbered.push({ paragraph, num: dataset.num, level: Number(dataset.level), isEnd: \"section\" in dataset, text: textContent });
    }
  }
  isCounting = numbersOf(numbered).every((text, place) => text === numbered[place].text);
  seeNumbers();
}

function levelAt(num, level) {
  return levels.get(num + \" \" + level) || NO_LEVEL;
}

// The counting

// The numbers of paragraphs, counted in this order. Each text box counts by itself.
function numbersOf(items) {
  const states = new Map();
  return items.map(({ paragraph, num, level }) => {
    const around = paragraph.parentElement.closest(\".box, section\");
    if (!states.has(around)) states.set(around, { values: new Map(), met: new Set() });
    return numberText(num, level, valuesAfter(states.get(around), num, level));
  });
}

// The values of a list after a paragraph with this num and level.
function valuesAfter({ values, met }, num, level) {
  const { list } = levelAt(num, level);
  if (!values.has(list)) values.set(list, new Array(LEVELS).fill(null));
  const now = values.get(list);
  for (let at = 0; at <= level; at += 1) {
    if (!met.has(num + \" \" + at) && levelAt(num, at).again) now.fill(null, at);
    met.add(num + \" \" + at);
  }
  for (let at = 0; at < level; at += 1) if (now[at] === null) now[at] = levelAt(num, at).start;
  now[level] = now[level] === null ? levelAt(num, level).start : now[level] + 1;
  for (let at = level + 1; at < LEVELS; at += 1) if (!stays(levelAt(num, at).restart, at, level)) now[at] = null;
  return now;
}

// Whether a deeper level goes on after a paragraph of this level.
function stays(restart, at, level) {
  return restart === 0 || (restart !== null && restart >= 1 && restart <= at && restart <= level);
}

// The texts of numbers

function numberText(num, level, values) {
  const { format, isLegal, hasPicture, text } = levelAt(num, level);
  if (format === \"bullet\") return text ? text.replace(/[\\ue000-\\uf8ff]/g, \"\\u2022\") : hasPicture ? \"\\u2022\" : \"\";
  const made = text.replace(/%([1-9])/g, (_, digit) => {
    const at = Number(digit) - 1;
    if (at > level) return \"\";
    const its = levelAt(num, at);
    return numeral(isLegal && its.format !== \"none\" && its.format !== \"decimalZero\" ? { format: \"decimal\" } : its, values[at] || 0);
  });
  return bytesOf(made) > LONGEST_NUMBER ? \"\" : made;
}

function numeral({ format, width }, value) {
  if (format === \"none\") return \"\";
  if (value < 0) return String(value);
  if (format === \"decimalZero\") return String(value).padStart(2, \"0\");
  if (format === \"padded\") return String(value).padStart(width, \"0\");
  if (format === \"ordinal\") return value + ordinalEnd(value);
  if (/Roman$/.test(format) && value >= 1 && value <= 3999) return cased(format, roman(value));
  if (/Letter$/.test(format) && value >= 1 && value <= 780) return cased(format, String.fromCharCode(65 + ((value - 1) % 26)).repeat(Math.floor((value - 1) / 26) + 1));
  return String(value);
}

function cased(format, text) {
  return format.startsWith(\"lower\") ? text.toLowerCase() : text;
}

function ordinalEnd(value) {
  return Math.floor((value % 100) / 10) === 1 ? \"th\" : [\"th\", \"st\", \"nd\", \"rd\"][value % 10] || \"th\";
}

function roman(value) {
  let [rest, text] = [value, \"\"];
  for (const [letters, worth] of ROMAN) {
    text += letters.repeat(Math.floor(rest / worth));
    rest %= worth;
  }
  return text;
}

// What a view shows

function numberSoon() {
  if (!numbered.length) return;
  clearTimeout(numbering);
  numbering = setTimeout(seeNumbers, 30);
}

// Gives each paragraph its number in the view of now.
function seeNumbers() {
  clearTimeout(numbering);
  if (viewNow() === \"marks\" || viewNow() === undefined) return numbered.forEach((it) => showNumber(it, it.text));
  const left = isCounting ? leftNumbered(REST[viewNow()]) : [];
  const texts = new Map(numbersOf(left).map((text, place) => [left[place], text]));
  for (const it of numbered) showNumber(it, texts.get(it) || \"\");
}

// Joined paragraphs have the number of the last of them.
function showNumber({ paragraph }, text) {
  const joined = isElement(paragraph.parentElement, \".joined\") ? paragraph.parentElement : null;
  if (!joined) set(paragraph, \"number\", spelled(text));
  else if (joined.lastElementChild === paragraph) set(joined, \"number\", spelled(text));
}

// The paragraphs with a number that are left once all else is accepted, or rejected.
function leftNumbered(rest) {
  const [first, second] = passes(rest);
  const isCut = (member) => cuts(member, first(member) || second(member));
  return numbered.filter(({ paragraph, isEnd }) => {
    const joined = paragraph.parentElement.closest(\".joined\");
    if (paragraph.closest(\".gone\") || isInCut(paragraph, isCut)) return false;
    if (joined && joined === paragraph.parentElement && joined.lastElementChild !== paragraph) return false;
    return !isEnd || showsMore(joined || paragraph, isCut);
  });
}

function isInCut(node, isCut) {
  for (let it = node.parentElement.closest(\"ins.text, del.text\"); it; it = it.parentElement.closest(\"ins.text, del.text\")) if (isCut(it)) return true;
  return false;
}

// Whether a paragraph shows more than its end.
function showsMore(paragraph, isCut) {
  const walker = document.createTreeWalker(paragraph, NodeFilter.SHOW_TEXT | NodeFilter.SHOW_ELEMENT);
  for (let node = walker.nextNode(); node; node = walker.nextNode()) {
    const isSeen = node.nodeType === Node.TEXT_NODE ? node.data !== \"\" && !node.parentElement.closest(\".mark, .props, .remark, a\") : isElement(node, \"br, .picture\");
    if (isSeen && !isInCut(node, isCut)) return true;
  }
  return false;
}

// Notes: the sign of a note leads to its text, and from there back to where the note is named.

const noteLinks = new Map();

function linkNotes() {
  const notes = new Map();
  for (const [story, name] of [[\"footnotes\", \"Footnote\"], [\"endnotes\", \"Endnote\"]])
    for (const it of main.querySelectorAll('[data-story=\"' + story + '\"] > sup:not(.remark)')) {
      const sign = it.textContent;
      // Of several notes with one sign it isn't known which is meant.
      if (sign) notes.set(sign, notes.has(sign) ? null : { note: it, name: name + \" \" + sign });
    }
  for (const it of main.querySelectorAll('[data-story=\"document\"] sup:not(.remark)')) {
    const { note, name } = notes.get(it.textContent) || {};
    if (!note) continue;
    leadTo(it, note, name);
    if (!noteLinks.has(note)) leadTo(note, it, name + \", back to where it is named\");
  }
}

function leadTo(sign, place, ariaLabel) {
  noteLinks.set(sign, place);
  Object.assign(sign, { tabIndex: 0, role: \"link\", ariaLabel, title: ariaLabel });
}

// Brings an element of the document into sight, and gives it the keyboard.
function goToElement(place) {
  for (let it = place.closest(\"details\"); it; it = it.parentElement.closest(\"details\")) it.open = true;
  comeNear(partOf(place));
  place.scrollIntoView({ block: \"center\" });
  place.focus({ preventScroll: true });
}

// Pictures, in place of the word that stands for each.

function showImages() {
  const [images, leads] = [new Map(), new Map()];
  for (const it of takenItems(\"ul.pictures\").flat()) {
    const { part, embed, image } = it.dataset;
    if (embed !== undefined) leads.set(part + \"\\n\" + embed, image);
    else if (!images.has(image)) images.set(image, it.firstElementChild);
  }
  if (!images.size) return;
  for (const story of main.querySelectorAll(\":scope > [data-part]\"))
    for (const it of story.querySelectorAll(\".picture[data-embed]\")) {
      const image = images.get(leads.get(story.dataset.part + \"\\n\" + it.dataset.embed));
      if (image) showImage(it, image.cloneNode());
    }
}

// What the word says of a picture is its text. Where it can't be shown the word comes back.
function showImage(picture, image) {
  const word = picture.firstChild;
  if (!word || word.nodeType !== Node.TEXT_NODE) return;
  image.alt = image.title = word.data.replace(/^picture(: )?/, \"\") || \"picture\";
  image.addEventListener(\"error\", () => {
    image.replaceWith(word);
    picture.classList.remove(\"seen\");
  });
  word.replaceWith(image);
  picture.classList.add(\"seen\");
}

// Comments: a sign at the place of each, which opens what was said there; the comments on a change in its row; and by themselves those
// that are nowhere in the text.

const remarks = takenItems(\"ul.remarks\").flat().map(({ dataset, textContent }, place) => ({
  place, id: dataset.remark, who: dataset.author, date: dataset.date.slice(0, 10), reply: dataset.reply, isDone: dataset.done === \"yes\", text: textContent,
}));
const remarkById = new Map();
for (const it of remarks) if (!remarkById.has(it.id)) remarkById.set(it.id, it);
// The places of each comment in the text, by its id: where it begins and ends, and its sign.
const remarkStarts = new Map();
const remarkEnds = new Map();
const remarkSigns = new Map();
const threads = new Map();

// The first comment of the thread of one.
function threadRoot(remark) {
  const met = new Set();
  let root = remark;
  while (root.reply !== undefined && remarkById.has(root.reply) && !met.has(root)) {
    met.add(root);
    root = remarkById.get(root.reply);
  }
  return root;
}

function placeRemarks() {
  for (const it of remarks) {
    const root = threadRoot(it);
    threads.set(root, [...(threads.get(root) || []), it]);
  }
  for (const [selector, found] of [[\".remark-start\", remarkStarts], [\".remark-end\", remarkEnds], [\"sup.remark\", remarkSigns]])
    for (const it of main.querySelectorAll(selector + \"[data-remark]\"))
      if (remarkById.has(it.dataset.remark) && !found.has(it.dataset.remark)) found.set(it.dataset.remark, it);
  for (const it of remarks) if (remarkById.get(it.id) === it) signRemark(it);
  for (const it of main.querySelectorAll(\".remark-own[data-remark]\")) if (remarkById.has(it.dataset.remark)) it.append(...headOfRemark(remarkById.get(it.dataset.remark)), ...wayTo(remarkById.get(it.dataset.remark)));
  listOrphans();
}

function isPlaced({ id }) {
  return remarkStarts.has(id) || remarkEnds.has(id) || remarkSigns.has(id);
}

// A comment whose range is there and whose reference isn't gets a sign at its end. An answer has none of its own where what it answers
// has one.
function signRemark(remark) {
  if (!isPlaced(remark)) return;
  const root = threadRoot(remark);
  if (root !== remark && isPlaced(root)) return;
  if (!remarkSigns.has(remark.id)) {
    const made = make(\"sup\", { className: \"remark\" });
    (remarkEnds.get(remark.id) || remarkStarts.get(remark.id)).after(made);
    remarkSigns.set(remark.id, made);
  }
  const said = threadOf(remark).map(remarkInWords).join(\"; \");
  const button = make(\"button\", { type: \"button\", className: \"remark-sign\", value: remark.place, textContent: \"c\" + (remark.place + 1), ariaExpanded: \"false\", ariaLabel: said, title: said });
  if (threadOf(remark).every((it) => it.isDone)) button.classList.add(\"done\");
  remarkSigns.get(remark.id).append(button);
}

// A comment with the answers to it, in their order.
function threadOf(remark) {
  return threads.get(threadRoot(remark)) || [remark];
}

// Words

function remarkInWords(remark) {
  const name = remark.reply === undefined ? \"Comment \" + (remark.place + 1) : \"Answer\";
  return name + \" by \" + (spelled(remark.who) || \"no name\") + (remark.date ? \", \" + remark.date : \"\") + (remark.isDone ? \", done\" : \"\") + \": \" + spelled(remark.text);
}

function headOfRemark(remark) {
  const answered = remarkById.get(remark.reply);
  return [\"Comment \" + (remark.place + 1) + \" by \", make(\"strong\", {}, isolated(remark.who)), (remark.date ? \", \" + remark.date : \"\") + (remark.isDone ? \", done\" : \"\") +
    (answered ? \", an answer to comment \" + (answered.place + 1) : \"\")];
}

function shownRemark(remark) {
  return make(\"span\", { className: \"remark-said\" + (remark.reply === undefined ? \"\" : \" answer\") + (remark.isDone ? \" done\" : \"\") },
    ...headOfRemark(remark), \": \", make(\"span\", { className: \"remark-text\" }, ...signed(remark.text)));
}

// A button that leads to the sign of a comment, where it has one.
function wayTo(remark) {
  const root = isPlaced(threadRoot(remark)) ? threadRoot(remark) : remark;
  if (!isPlaced(root)) return [];
  return [\" \", make(\"button\", { type: \"button\", className: \"remark-way\", value: root.place, textContent: \"show its place\", ariaLabel: \"Show the place of comment \" + (remark.place + 1) })];
}

// What is pressed

function openRemark(button) {
  const isOpen = button.ariaExpanded === \"true\";
  closeRemarks();
  if (isOpen) return;
  button.ariaExpanded = \"true\";
  button.after(make(\"span\", { className: \"remark-box\", role: \"group\", ariaLabel: \"Comment\" }, ...threadOf(remarks[button.value]).map(shownRemark)));
}

function closeRemarks() {
  for (const it of main.querySelectorAll(\".remark-box\")) it.remove();
  for (const it of main.querySelectorAll(\".remark-sign[aria-expanded=true]\")) it.ariaExpanded = \"false\";
}

function goToRemark(button) {
  const sign = remarkSigns.get(remarks[button.value].id).querySelector(\"button\");
  goToElement(sign);
  if (sign.ariaExpanded === \"false\") openRemark(sign);
}

// What a comment is on is tinted while its sign has the keyboard, where the browser can tint a range.
function tintRemark(button) {
  if (!window.Highlight) return;
  const { id } = remarks[button.value] || {};
  const [start, end] = [remarkStarts.get(id), remarkEnds.get(id)];
  CSS.highlights.delete(\"remark\");
  if (!start || !end) return;
  const range = new Range();
  range.setStartAfter(start);
  range.setEndBefore(end);
  if (!range.collapsed) CSS.highlights.set(\"remark\", new Highlight(range));
}

function clearTint() {
  if (window.Highlight) CSS.highlights.delete(\"remark\");
}

// The comments on changes

// The threads that are on the changes at these places, each by its first comment.
function threadsOn(places) {
  const ids = new Set(places.flatMap((at) => (rows[at].dataset.remarks || \"\").split(\" \")));
  return Array.from(new Set(Array.from(ids).filter((it) => remarkById.has(it)).map((it) => threadRoot(remarkById.get(it)))));
}

function remarksInRow(places) {
  const found = threadsOn(places);
  if (!found.length) return [];
  const all = found.flatMap(threadOf);
  return [make(\"details\", { className: \"remarks\", open: !all.every((it) => it.isDone) }, make(\"summary\", { textContent: many(all.length, \"comment\") + (all.every((it) => it.isDone) ? \", done\" : \"\") }),
    ...found.map((root) => make(\"p\", {}, ...threadOf(root).map(shownRemark), ...wayTo(root))))];
}

function listOrphans() {
  const orphans = remarks.filter((it) => !threadOf(it).some(isPlaced));
  if (!orphans.length) return;
  main.append(make(\"section\", { className: \"orphans\" }, make(\"h2\", { textContent: \"Comments that are nowhere in the text\" }),
    make(\"ul\", {}, ...orphans.map((it) => make(\"li\", {}, shownRemark(it))))));
}

main.addEventListener(\"focusin\", ({ target }) => target.matches(\".remark-sign\") && tintRemark(target));
main.addEventListener(\"focusout\", clearTint);

// What a part of the document gets once it is nearly seen: signs for what can't be seen, and what a screen reader is told.

const ROLES = { TABLE: \"table\", TBODY: \"rowgroup\", TR: \"row\", TD: \"cell\" };
const dressed = new WeakSet();

function dress(part) {
  if (dressed.has(part)) return;
  dressed.add(part);
  showUnseen(part);
  for (const it of part.querySelectorAll(\"table, tbody, tr, td\")) it.setAttribute(\"role\", ROLES[it.tagName]);
  for (const it of part.querySelectorAll(\"[data-revision]\")) describe(it);
}

// A change in the text says what it is and whose, and can have the keyboard.
function describe(place) {
  const at = placeOf(place);
  const words = wordsOfChange(at);
  if (!place.matches(\"a\")) place.tabIndex = -1;
  place.title = words;
  if (!place.matches(\".props, .mark, .row, .cell\")) return;
  place.setAttribute(\"role\", \"img\");
  place.ariaLabel = words;
}

function wordsOfChange(at) {
  const { date } = rows[at].dataset;
  const kind = KINDS[kindsOf[at]] + (changesOf[at] && \" (\" + spelled(changesOf[at]) + \")\");
  const where = [clausesOf[at], placeNames[at]].filter((it) => it).map((it) => \", \" + spelled(it)).join(\"\");
  const said = threadsOn([at]).flatMap(threadOf).length;
  return \"Change \" + (at + 1) + where + \": \" + kind + \" by \" + spelled(authorsOf[at] || \"no name\") + (date === \"-\" ? \"\" : \", \" + date.slice(0, 10)) + (said ? \", \" + many(said, \"comment\") : \"\");
}

// The parts of the document: the groups of a long story, and the other stories. What is near sight is dressed, and shows words
// and view as they are now. The others follow soon after, some at a time, so that nobody waits for what isn't seen.

const AT_A_TIME = 4;
// So many milliseconds after something was done the others begin to follow: until then it is shown.
const PAUSE = 100;
const nearParts = new Set();
// The parts whose words, verdicts or view aren't those of now.
const behind = new Set();
let following = 0;

function allParts() {
  const groupsOf = (story) => Array.from(story.querySelectorAll(\":scope > .far\"));
  return Array.from(main.children).flatMap((story) => (groupsOf(story).length ? groupsOf(story) : [story]));
}

// The part that an element of the document stands in.
function partOf(element) {
  return element.closest(\"section > .far, main > *\");
}

function isNear(part) {
  return nearParts.has(part) || !part.matches(\".far\");
}

function watchParts() {
  const near = new IntersectionObserver((found) => found.forEach(({ target, isIntersecting }) => {
    if (!isIntersecting) return nearParts.delete(target);
    nearParts.add(target);
    comeNear(target);
  }), { root: main, rootMargin: \"100%\" });
  for (const part of allParts()) {
    if (part.matches(\".far\")) near.observe(part);
    else dress(part);
  }
}

// What a part needs before it is looked at.
function comeNear(part) {
  dress(part);
  if (behind.has(part)) catchUp(part);
}

function catchUp(part) {
  behind.delete(part);
  if (viewNow() === \"marks\") delete part.dataset.seen;
  else part.dataset.seen = viewNow();
  drawIn(part);
}

// Gives the view to the parts near sight, and soon to the others.
function seeParts() {
  for (const part of allParts()) {
    if (isNear(part)) catchUp(part);
    else behind.add(part);
  }
  followSoon();
}

function followSoon(after = PAUSE) {
  clearTimeout(following);
  if (behind.size) following = setTimeout(catchUpSome, after);
  if (behind.size || main.ariaBusy) main.ariaBusy = String(behind.size > 0);
}

function catchUpSome() {
  Array.from(behind).slice(0, AT_A_TIME).forEach(catchUp);
  followSoon(0);
}

// What is printed, and what is copied, is all as it is now.
function seeAll() {
  Array.from(behind, catchUp);
  seeNumbers();
  followSoon();
}

// Excerpts: what a change is about, in a few words, with the changes around it.

const NO_WORDS = \"a, details, sup, .picture, .mark, .row, .cell, .props\";

// The texts of a block on one side of a place, or inside it, until there are so many characters: each with the change that
// it stands in, and whether it is hidden.
function piecesFrom(walker, next, isIn, most) {
  const pieces = [];
  for (let node = walker[next](), length = 0; node && isIn(node) && length < most; node = walker[next]()) {
    const other = node.parentElement.closest(NO_WORDS);
    if (other && walker.root.contains(other)) continue;
    pieces.push({ text: node.data.replace(/[\\t\\n ]+/g, \" \"), change: changeOf(node, walker.root), isHidden: node.parentElement.closest(\".hidden\") !== null });
    length += pieces.at(-1).text.length;
  }
  return pieces;
}

// Text in an insertion that is deleted is deleted.
function changeOf(node, block) {
  const change = node.parentElement.closest(\"del.text\") || node.parentElement.closest(\"ins.text\");
  return change && block.contains(change) ? change : null;
}

// The pieces of the block around a place: before it, in it, and behind it.
function piecesAround(place) {
  const block = place.closest(\"p, .p, td, section\");
  const walker = document.createTreeWalker(block, NodeFilter.SHOW_TEXT);
  walker.currentNode = place;
  const before = piecesFrom(walker, \"previousNode\", () => true, 48).reverse();
  walker.currentNode = place;
  const inside = piecesFrom(walker, \"nextNode\", (node) => place.contains(node), 160);
  walker.currentNode = lastIn(place);
  return [before, inside, piecesFrom(walker, \"nextNode\", () => true, 48)];
}

function lastIn(node) {
  let last = node;
  while (last.lastChild) last = last.lastChild;
  return last;
}

// So many characters of pieces, from the start or from the end, cut at a space.
function cutPieces(pieces, most, isFromEnd = false) {
  let left = most;
  const kept = [];
  for (const piece of isFromEnd ? [...pieces].reverse() : pieces) {
    const { text } = piece;
    const cut = text.length <= left ? text : isFromEnd ? \"\\u2026\" + text.slice(-left).replace(/^\\S*\\s/, \"\") : text.slice(0, left).replace(/\\s\\S*$/, \"\") + \"\\u2026\";
    kept.push({ ...piece, text: cut });
    left -= text.length;
    if (left <= 0) break;
  }
  return isFromEnd ? kept.reverse() : kept;
}

// A piece as it looks in the document: inserted, deleted, or neither, and hidden or not.
function shownPiece({ text, change, isHidden }) {
  const className = isHidden ? \"hidden\" : \"\";
  return change ? make(change.localName, { className, \"data-author\": change.dataset.author }, ...signed(text)) : make(\"span\", { className }, ...signed(text));
}

function textOf(pieces) {
  return pieces.map((it) => it.text).join(\"\");
}

// The row, cell or table that a change is about.
function wholeOf(place) {
  if (place.matches(\".row, .edge > .props\")) return place.closest(\"tr\");
  if (place.matches(\".cell, td > .props\")) return place.closest(\"td\");
  return place.matches(\"caption > .props\") ? place.closest(\"table\") : null;
}

// What changes are about: their own words between those around them, or the texts of a row, a cell or a table.
function excerptOf(changes) {
  const found = changes.slice(0, 100).flatMap(placesAt);
  const place = found.find((it) => it.matches(\".row\")) || found.find((it) => it.matches(\"del.text, ins.text\")) || found.find((it) => it.matches(\"del, ins\")) || found[0];
  const made = make(\"p\", { className: \"words\" });
  if (!place) return made;
  const whole = wholeOf(place);
  const sign = place.matches(\".mark\") ? \"\\u00b6\" : place.matches(\".props\") ? \"\\u258e\" : \"\\u2026\";
  if (whole) {
    const texts = Array.from(whole.querySelectorAll(\"p, .p\")).slice(0, 20).map((it) => textOf(piecesAround(it)[1]));
    const words = signed(cut(texts.join(\" | \"), 120) || \"empty\");
    made.append(...(place.matches(\".props\") ? [make(\"span\", { className: \"own\" }, sign), ...words] : [make(place.localName, { className: \"own\" }, ...words)]));
    return made;
  }
  const [before, inside, after] = piecesAround(place);
  const words = textOf(inside).trim() ? cutPieces(inside, 120).map((it) => (it.change === place ? { ...it, change: null } : it)) : [{ text: sign }];
  const own = new Set(changes.map((at) => String(at + 1)));
  const shown = (pieces) => pieces.map((it) => {
    const piece = shownPiece(it);
    if (it.change && own.has(it.change.dataset.revision)) piece.classList.add(\"own\");
    return piece;
  });
  made.append(...shown(cutPieces(before, 32, true)),
    make(place.localName, { className: \"own\" }, ...words.map(shownPiece)),
    ...shown(cutPieces(after, changes.length > 1 ? 90 : 32)));
  return made;
}

function cut(text, length) {
  return text.length > length ? text.slice(0, length).replace(/\\s\\S*$/, \"\") + \"\\u2026\" : text;
}

// The list of changes. It holds the rows near sight alone, in the place of all that a filter leaves, with room for the rest
// above and below. A row is that of a change, or of an edit.

const HELD = 160;
const room = [make(\"li\", { className: \"room\", role: \"none\" }), make(\"li\", { className: \"room\", role: \"none\" })];

// The lines of the list for the places that are shown, where each is, whether a place is shown, and which lines are held.
let lines = [];
const lineIndex = new Map();
let isShownAt = new Uint8Array(rows.length);
let held = { first: 0, end: 0 };
let rowHeight = 120;

function numberOf(row) {
  return Number(row.id.slice(\"revision-\".length));
}

// Puts into a row what is read and pressed there, once.
function fill(row) {
  if (row.hasAttribute(\"tabindex\")) return;
  row.tabIndex = -1;
  const at = numberOf(row) - 1;
  const { date, verdict } = row.dataset;
  row.prepend(
    make(\"p\", { className: \"head\" },
      make(\"span\", {}, make(\"b\", { textContent: at + 1 }), \" \" + KINDS[kindsOf[at]] + \" by \", whoOf(at), date === \"-\" ? \"\" : \", \" + date.slice(0, 10)),
      make(\"span\", { className: \"verdict\", textContent: verdict === \"open\" ? \"\" : DONE[verdict] || verdict })),
    ...row.querySelectorAll(\":scope > :is(.clause, .place)\"),
    excerptOf([at]));
  const said = saysOn(at);
  row.querySelectorAll(\":scope > p[data-word]\").forEach((it, place) => nameApart(it, said[place].who));
  row.append(...remarksInRow([at]), lockedAt[at] ? make(\"p\", { className: \"locked\", textContent: \"Locked: this change can't be decided here.\" }) :
    make(\"div\", { className: \"buttons\", role: \"group\", ariaLabel: \"Change \" + (at + 1) },
      ...Object.keys(LETTERS).map((value) => make(\"button\", { type: \"button\", value, textContent: value }))));
  press(row);
}

// The name of who spoke has its own direction, and is spelled out.
function nameApart(said, who) {
  const name = said.querySelector(\"bdi\");
  if (name) return name.replaceWith(isolated(who));
  said.replaceChildren(isolated(who), \": \" + DONE[said.dataset.word] + (said.dataset.rank === \"0\" ? \"\" : \" with rank \" + said.dataset.rank));
}

function whoOf(at) {
  return make(\"span\", { className: \"who\" }, isolated(authorsOf[at]));
}

// Shows in a row, where it is filled, which of its buttons is pressed. A word can be withdrawn only where there is one.
function press(row) {
  if (!row.hasAttribute(\"tabindex\")) return;
  const at = numberOf(row) - 1;
  for (const button of row.querySelectorAll(\"button\")) {
    button.ariaPressed = String(button.value === words[at]);
    if (button.value === \"withdraw\") button.disabled = words[at] !== \"withdraw\" && !hasEarlier(at);
  }
}

function pressAll() {
  rows.forEach(press);
  for (const it of editRows.values()) pressEdit(it);
}

// Which rows are shown

function isShown(at) {
  return isShownAt[at] === 1;
}

// Shows the rows at these places, which ascend, and no others. The list stays at the change that is chosen.
function showRows(places) {
  isShownAt = new Uint8Array(rows.length);
  for (const at of places) isShownAt[at] = 1;
  makeLines(places);
  const from = current && lineIndex.has(lineOfRow(current)) ? lineIndex.get(lineOfRow(current)) : 0;
  hold(from);
  list.scrollTop = 0;
  if (from) current.scrollIntoView({ block: \"center\" });
}

function makeLines(places) {
  lines = Array.from(linesFor(places));
  lineIndex.clear();
  lines.forEach((line, index) => lineIndex.set(line, index));
  for (const it of editRows.values()) it.removeAttribute(\"tabindex\");
  followCurrent();
}

// Shows the same changes, where an edit was opened or closed, or edits have rows now or none.
function showAnew() {
  makeLines(allPlaces().filter(isShown));
  hold(current && lineIndex.has(lineOfRow(current)) ? lineIndex.get(lineOfRow(current)) : held.first + HELD / 2);
}

// Holds the rows around one of the shown, and keeps in place what is seen of them.
function hold(index) {
  const first = Math.max(0, Math.min(index - HELD / 2, lines.length - HELD));
  const end = Math.min(lines.length, first + HELD);
  const wanted = lines.slice(first, end).map(rowOfLine);
  const kept = new Set(wanted);
  const seen = Array.from(list.children).find((it) => kept.has(it) && it.offsetTop + it.offsetHeight > list.scrollTop);
  const before = seen ? seen.getBoundingClientRect().top : 0;
  wanted.forEach((row, place) => fillLine(row, lines[first + place]));
  for (const row of Array.from(list.children)) if (!kept.has(row) && !room.includes(row)) row.remove();
  let next = room[1].parentNode ? room[1] : null;
  for (const row of wanted.reverse()) {
    if (row.parentNode !== list || row.nextSibling !== next) list.insertBefore(row, next);
    next = row;
  }
  held = { first, end };
  measure();
  if (seen) list.scrollTop += seen.getBoundingClientRect().top - before;
}

// Gives the rows that aren't held their room, as high as those that are.
function measure() {
  const count = held.end - held.first;
  if (count === lines.length) return room.forEach((it) => it.remove());
  const [first, last] = [rowOfLine(lines[held.first]), rowOfLine(lines[held.end - 1])];
  rowHeight = Math.max(40, (last.offsetTop + last.offsetHeight - first.offsetTop) / count);
  list.prepend(room[0]);
  list.append(room[1]);
  room[0].style.height = held.first * rowHeight + \"px\";
  room[1].style.height = (lines.length - held.end) * rowHeight + \"px\";
  for (let at = held.first; at < held.end; at += 1)
    Object.assign(rowOfLine(lines[at]), { ariaSetSize: lines.length, ariaPosInSet: at + 1 });
}

// Holds other rows where the list was moved to an end of those that it holds.
function follow() {
  if (held.end - held.first === lines.length) return;
  const top = list.scrollTop - room[0].offsetHeight;
  const bottom = room[1].offsetTop - list.scrollTop - list.clientHeight;
  const isOutside = top < -list.clientHeight || bottom < -list.clientHeight;
  if (isOutside) hold(Math.round(list.scrollTop / rowHeight));
  else if (top < list.clientHeight && held.first > 0) hold(held.first + HELD / 4);
  else if (bottom < list.clientHeight && held.end < lines.length) hold(held.end - HELD / 4);
}

// Fills the row of a line. The changes of an edit that is open are set in.
function fillLine(row, line) {
  if (isEditLine(line)) return fillEdit(row);
  fill(row);
  row.classList.toggle(\"of-edit\", editAt[line] !== null && opened.has(editAt[line]) && lineIndex.has(~editAt[line][0]));
}

// Brings a row that is shown into sight.
function reach(row) {
  const line = lineOfRow(row);
  fillLine(row, line);
  if (!lineIndex.has(line)) return;
  if (row.parentNode !== list) hold(lineIndex.get(line));
  row.scrollIntoView({ block: \"nearest\" });
}

function watchRows() {
  list.replaceChildren();
  list.addEventListener(\"scroll\", follow, { passive: true });
  addEventListener(\"resize\", measure);
}

// The words: what the reviewer says of each change. They are held by place, which is the number less one; the rows of the
// list and the elements of the document only show them.

const words = rows.map(() => \"\");
const counts = { accept: 0, reject: 0, withdraw: 0 };
// The sequence number with which the word on a change was saved, or will be.
const sequenceAt = rows.map(() => 0);
let furthest = 0;

// Puts a word on a change, or none.
function say(at, word, sequence = nextSequence()) {
  if (words[at]) counts[words[at]] -= 1;
  if (word) counts[word] += 1;
  words[at] = word;
  sequenceAt[at] = sequence;
  furthest = Math.max(furthest, sequence);
  unkept.add(at);
  redraw(at);
}

// Puts words on changes, each a place, a word and a sequence number or none. What comes puts the former words there.
function replace(changes) {
  const free = changes.filter(([at]) => !lockedAt[at]);
  const former = free.map(([at]) => [at, words[at], sequenceAt[at]]);
  for (const [at, word, sequence] of free) say(at, word, sequence);
  changed();
  return former;
}

// The places of all changes, in their order.
function allPlaces() {
  return Array.from(rows.keys());
}

function decidedPlaces() {
  return allPlaces().filter((at) => words[at]);
}

// What reviewers say of a change in the journals of this page: who, word and rank.
const heard = [];

function saysOn(at) {
  heard[at] = heard[at] || Array.from(rows[at].querySelectorAll(\":scope > p[data-word]\"), (it) => {
    const { data = \"\" } = (it.querySelector(\"bdi\") || it).firstChild || {};
    return { who: data, word: it.dataset.word, rank: Number(it.dataset.rank) };
  });
  return heard[at];
}

// The reviewer's own words on a change in the journals of this page.
function ownOn(at) {
  return saysOn(at).filter((it) => it.who === reviewer).map((it) => it.word);
}

// Whether there is a word of the reviewer that can be withdrawn: in a journal of this page, or in one that was saved.
function hasEarlier(at) {
  return ownOn(at).some((it) => it !== \"withdraw\") || (saved.words.get(at) || \"withdraw\") !== \"withdraw\";
}

// What other reviewers say against the reviewer's word on a change.
function against(at) {
  const mine = words[at] ? [words[at]] : ownOn(at);
  const opposite = mine.includes(\"accept\") ? \"reject\" : mine.includes(\"reject\") ? \"accept\" : \"\";
  return saysOn(at).filter((it) => it.who !== reviewer && it.word === opposite);
}

// How many changes have which word, as \"2 accepted, 1 rejected\".
function countsInWords(all = counts) {
  return Object.keys(DONE).filter((it) => all[it]).map((it) => all[it] + \" \" + DONE[it]).join(\", \");
}

function tallied(said) {
  const all = { accept: 0, reject: 0, withdraw: 0 };
  for (const word of said) all[word] += 1;
  return all;
}

function many(count, one) {
  return count + \" \" + one + (count === 1 ? \"\" : \"s\");
}

// Verdicts: what the journals of this page and the reviewer's own words come to on a change.

// The reviewer's own rank, where who sent the page gave one.
const ownRank = Number(document.body.dataset.rank || 0);

// The verdict on the change at a place. A word that is decided here replaces what the journals have of its reviewer. Of
// the words that aren't withdrawn those with the highest rank count, and two of them that differ are a dispute.
function verdictAt(at) {
  if (!words[at]) return verdictsOf[at];
  const others = saysOn(at).filter((it) => it.who !== reviewer);
  if (!others.length) return words[at] === \"withdraw\" ? \"open\" : words[at];
  const said = [...others, { word: words[at], rank: ownRank }].filter((it) => it.word !== \"withdraw\");
  const highest = Math.max(...said.map((it) => it.rank));
  const deciding = new Set(said.filter((it) => it.rank === highest).map((it) => it.word));
  return deciding.size > 1 ? \"disputed\" : Array.from(deciding)[0] || \"open\";
}

function isDecided(verdict) {
  return verdict === \"accept\" || verdict === \"reject\";
}

// Lists of blocks, and what a pass leaves of one: which paragraphs are joined and which go, as in the document that is
// written.
//
// The page is written so that each list can be read off it. The kids of a story, a cell or a text box are blocks; a comment
// `list` begins another list in the one around it, and a comment `other` begins a block whose paragraphs never join.

const PARAGRAPH = \"p, .p\";

function isElement(node, selector) {
  return node.nodeType === Node.ELEMENT_NODE && node.matches(selector);
}

// The nodes of a story, a cell or a text box, without what the script put around some of them.
function* nodesOf(root) {
  for (const node of root.childNodes) {
    if (isElement(node, \".far, .joined\")) yield* nodesOf(node);
    else yield node;
  }
}

// Its lists. A comment stands in a list for the list or the other block that it begins.
function listsIn(root) {
  const lists = [[]];
  const around = [lists[0]];
  const begin = (list) => {
    around.unshift(list);
    if (!list.isOther) lists.push(list);
  };
  for (const node of nodesOf(root)) {
    const word = node.nodeType === Node.COMMENT_NODE ? node.data : \"\";
    if (word.startsWith(\"/\")) around.shift();
    else around[0].push(node);
    if (word === \"list\" || word === \"other\") begin(Object.assign([], { isOther: word === \"other\" || around[0].isOther }));
  }
  return lists;
}

// A block by itself. What else is in a list stands between two blocks.
function isThick(node) {
  return node.nodeType === Node.COMMENT_NODE || isElement(node, \"p, .p, table, details\");
}

// What one pass leaves of a list of groups, each of which is a node, or the nodes of several paragraphs that were joined.
// A paragraph whose end is cut is joined with the next block where that is a paragraph. Before any other block it goes
// where it holds nothing.
function passOver(groups, { isCut, holds }) {
  const left = [];
  let joined = [];
  groups.forEach((group, at) => {
    const isJoining = joined.length > 0;
    joined.push(...group);
    const last = group.at(-1);
    const isEnd = isElement(last, PARAGRAPH);
    const next = isEnd && isCut(last) ? nextBlock(groups, at) : null;
    if (isEnd ? next && isElement(next, PARAGRAPH) : isJoining) return;
    if (!next || holds(joined)) left.push(joined);
    joined = [];
  });
  return left;
}

function nextBlock(groups, from) {
  for (let at = from + 1; at < groups.length; at += 1) if (isThick(groups[at].at(-1))) return groups[at].at(-1);
  return null;
}

// What a view shows of the document: that of the written document after all that is decided in the journals and here, with
// the rest accepted, or rejected.

const REST = { final: \"accept\", original: \"reject\" };

// Whether a paragraph that shows nothing has a comment `holds` where it holds an element in no change.
const TELLS_HELD = false;

// A pass decides some changes: the first one those with a verdict, and the second one the rest. It has a word on the
// change of a member, or none.
function passes(rest) {
  const first = (member) => (isDecided(verdictAt(placeOf(member))) ? verdictAt(placeOf(member)) : \"\");
  return [first, (member) => (first(member) ? \"\" : rest)];
}

function cuts(member, word) {
  return word !== \"\" && (member.localName === \"del\") === (word === \"accept\");
}

// The marks of a paragraph, which are its last elements.
function marksOf(paragraph) {
  const found = [];
  for (let it = paragraph.lastElementChild; it && it.matches(\".mark\"); it = it.previousElementSibling) found.push(it);
  return found;
}

// Tables: a cell goes where one of its members is cut, a row also where all its cells go, and a table where all rows go.

function membersOf(it) {
  return Array.from(it.querySelectorAll(it.localName === \"tr\" ? \":scope > td > .edge > :is(ins, del)\" : \":scope > .cell\"));
}

function allGo(items, goes) {
  return items.length > 0 && items.every(goes);
}

function goesBy(isCut) {
  const cell = (it) => membersOf(it).some(isCut);
  const row = (it) => membersOf(it).some(isCut) || allGo(Array.from(it.cells), cell);
  const table = (it) => allGo(Array.from(it.rows), row);
  return { cell, row, table };
}

// Whether a joined group holds an element. The page doesn't show every one, so of a paragraph and of content that show
// nothing it isn't known; they are then taken to stay, and are among the doubts.
function holdsBy(isCut, isLeft, doubts) {
  const isContent = (it) => isElement(it, \"ins.text, del.text\");
  const isSeen = (it) => (it.nodeType === Node.COMMENT_NODE ? !it.data.startsWith(\"/\") : !isElement(it, \".mark, .props, a\"));
  const one = (node) => {
    if (!isContent(node)) return isSeen(node) || (isElement(node, \"a\") && isLeft(node)) ? \"yes\" : \"no\";
    if (isCut(node)) return \"no\";
    const kids = Array.from(node.childNodes);
    return isLeft(node) || kids.some((it) => !isContent(it)) ? \"yes\" : kids.length ? has(kids) : \"maybe\";
  };
  const has = (kids) => {
    const found = kids.map(one);
    return found.includes(\"yes\") ? \"yes\" : found.includes(\"maybe\") ? \"maybe\" : \"no\";
  };
  return (group) => {
    const found = has(group.flatMap((node) => (isElement(node, PARAGRAPH) ? Array.from(node.childNodes) : [])));
    const isDoubtful = found === \"maybe\" || (found === \"no\" && !TELLS_HELD);
    if (isDoubtful) doubts.add(group.at(-1));
    return isDoubtful || found === \"yes\";
  };
}

// The groups that both passes leave of a list, and the paragraphs of which it isn't known whether they stay.
function leftOf(list, rest) {
  const doubts = new Set();
  const [first, second] = passes(rest);
  const isCutFirst = (member) => cuts(member, first(member));
  const isCut = (member) => cuts(member, first(member) || second(member));
  const goesFirst = goesBy(isCutFirst).table;
  const groups = passOver(list.map((node) => [node]), {
    isCut: (paragraph) => marksOf(paragraph).some(isCutFirst),
    holds: holdsBy(isCutFirst, (member) => !first(member), doubts),
  });
  const stay = groups.filter(([node]) => !isElement(node, \"table\") || !goesFirst(node));
  const left = passOver(stay, {
    isCut: (paragraph) => marksOf(paragraph).some((mark) => cuts(mark, second(mark))),
    holds: holdsBy(isCut, () => false, doubts),
  });
  return { left, doubts };
}

// How words and verdicts are shown: on the row of a change, on its buttons, and on its elements in the document.

// Places whose words changed since they were drawn.
let undrawn = new Set();

function redraw(at) {
  if (!undrawn.size) queueMicrotask(drawWords);
  undrawn.add(at);
}

function redrawAll() {
  for (const at of rows.keys()) redraw(at);
}

function drawWords() {
  const now = Array.from(undrawn);
  undrawn = new Set();
  const edits = new Set(now.map((at) => editAt[at]).filter((it) => it && editRows.has(it[0])));
  for (const at of now) {
    set(rows[at], \"say\", words[at]);
    press(rows[at]);
    placesAt(at).forEach(drawWhereNear);
  }
  for (const it of edits) pressEdit(editRows.get(it[0]));
  followSoon();
  if (viewNow() === \"marks\") return;
  const touched = new Set(now.flatMap((at) => placesAt(at).map(listedElement)));
  seeLists(Array.from(touched).filter((it) => withLists.has(it)));
  captionView();
  numberSoon();
}

// What is far from sight is drawn when its part catches up.
function drawWhereNear(place) {
  const part = partOf(place);
  if (isNear(part)) draw(place);
  else behind.add(part);
}

function drawIn(root) {
  root.querySelectorAll(\"[data-revision]\").forEach(draw);
}

// Shows on an element of a change its word, and in a view without marks its verdict.
function draw(place) {
  const at = placeOf(place);
  set(place, \"say\", words[at]);
  if (viewNow() === \"marks\") return;
  const verdict = verdictAt(at);
  set(place, \"verdict\", verdict === \"open\" ? \"\" : verdict);
}

function set(element, key, value) {
  const name = \"data-\" + key;
  if ((element.getAttribute(name) || \"\") === value) return;
  if (value) element.setAttribute(name, value);
  else element.removeAttribute(name);
}

// The change or the edit that is chosen, and the ways to the next one.

let current = null;
let markedCurrent = [];

// Makes a row the current one: it has the keyboard, and it and its places in the document are shown.
function choose(row, isFromDocument) {
  makeCurrent(row);
  reach(row);
  row.focus({ preventScroll: true });
  if (!isFromDocument) showPlace(row);
}

function makeCurrent(row) {
  for (const it of markedCurrent) it.removeAttribute(\"aria-current\");
  current = row;
  markedCurrent = [row, ...placesOf(row)];
  for (const it of markedCurrent) it.setAttribute(\"aria-current\", \"true\");
}

// Where an edit was opened or closed, or the filter leaves one of its changes alone, what is chosen stays chosen in its new row.
function followCurrent() {
  if (!current) return;
  const line = lineOfRow(current);
  if (lineIndex.has(line)) return makeCurrent(current);
  const at = (isEditLine(line) ? editAt[~line] : [line]).find(isShown);
  if (at !== undefined) makeCurrent(rowOfLine(lineAt(at)));
}

// The index of the line from which the next one is sought in a direction: that of the one chosen, or its place among the others.
function here(by) {
  if (!current) return by < 0 ? lines.length : -1;
  const line = lineOfRow(current);
  if (lineIndex.has(line)) return lineIndex.get(line);
  const at = isEditLine(line) ? ~line : line;
  const next = lines.findIndex((it) => (isEditLine(it) ? ~it : it) > at);
  return (next < 0 ? lines.length : next) - (by > 0 ? 1 : 0);
}

// The next line from an index of which this holds, round the end of the list; null where there is none.
function nextLine(from, by, holds) {
  for (let count = 1; count <= lines.length; count += 1) {
    const line = lines[(from + by * count + lines.length * 2) % lines.length];
    if (lineHolds(line, holds)) return line;
  }
  return null;
}

function step(by) {
  const next = lines[here(by) + by];
  if (next !== undefined) choose(rowOfLine(next));
}

// Goes to the next change of some sort, or says that there is none.
function seek(by, holds, sort) {
  const line = nextLine(here(by), by, holds);
  if (line === null) return tell(\"No change that is shown is \" + sort + \".\");
  choose(rowOfLine(line));
  tell(isEditLine(line) ? \"Edit \" + rangesInWords(placesOfLine(line)) + \" has a change that is \" + sort + \".\" : \"Change \" + (line + 1) + \" is \" + sort + \".\");
}

function isDisputed(at) {
  return verdictsOf[at] === \"disputed\";
}

function differs(at) {
  return against(at).length > 0;
}

// Decisions, of one change or of all that a filter leaves.

// Does what the reviewer asked for, and remembers how it is undone.
function act(text, changes) {
  remember(text, replace(changes));
}

// What a button or a key does: its word, or none where the change has that word already.
function decide(row, word) {
  if (!row) return tell(\"Choose a change first: the key j goes to the next one.\");
  if (row.matches(\".edit\")) return decideEdit(row, word);
  const at = numberOf(row) - 1;
  const name = \"Change \" + (at + 1);
  if (!lineIndex.has(at)) return tell(name + \" is hidden by the filter: the key j goes to the next one.\");
  if (lockedAt[at]) return tell(name + \" is locked.\");
  const former = words[at];
  if (word === \"withdraw\" && former !== word && !hasEarlier(at)) return tell(nothingToWithdraw(name));
  const next = former === word ? \"\" : word;
  act(\"change \" + (at + 1) + \" \" + (DONE[next] || \"not decided\"), [[at, next]]);
  tell(name + \": \" + (DONE[next] || \"not decided\") + (former && next ? \". It was \" + DONE[former] : \"\") + \".\");
  if (next && advance.checked) goOn(at);
}

function nothingToWithdraw(name) {
  return name + \": there is no earlier word \" + (reviewer ? \"of \" + reviewer : \"of yours, as far as this page knows without your name,\") + \" to withdraw.\";
}

// After a decision the next line with a change that isn't decided is chosen.
function goOn(line) {
  const next = nextLine(lineIndex.get(line), 1, isUndecided);
  if (next !== null) return choose(rowOfLine(next));
  const hidden = rows.filter((_, place) => isUndecided(place)).length;
  tell(line.textContent + (hidden ? \" All that is shown is decided; \" + many(hidden, \"change\") + \" that the filter hides \" + (hidden === 1 ? \"is\" : \"are\") + \" not.\" : \" All changes are decided.\"));
}

function isUndecided(at) {
  return !words[at] && !lockedAt[at];
}

// Decides all that the filter leaves, as words are now. Where another word would be replaced, the reviewer is asked; where
// another filter was typed and not yet seen, nothing is decided.
async function decideShown(word) {
  const isSeen = filtered === chosenFilter();
  filter();
  if (!isSeen) return tell(\"The filter is another one now: look at what it leaves, and press again.\");
  const left = allPlaces().filter((at) => isShown(at) && !lockedAt[at] && words[at] !== word);
  const other = left.filter((at) => words[at]);
  const rest = left.filter((at) => !words[at]);
  const answer = other.length ? await askToReplace(word, other, rest) : \"all\";
  if (!answer) return tell(\"Nothing was changed.\");
  const places = answer === \"all\" ? left : rest;
  if (places.length) act(places.length + \" \" + DONE[word], places.map((at) => [at, word]));
  tell(places.length ? places.length + \" \" + DONE[word] + \".\" : \"No change that is shown is without this word.\");
}

function askToReplace(word, other, rest) {
  const text = countsInWords(tallied(other.map((at) => words[at])));
  return ask(\"Replace \" + many(other.length, \"word\") + \" of yours?\", [
    make(\"p\", {}, \"Of the changes that the filter leaves you have decided \" + other.length + \" otherwise: \" + text + \".\"),
    make(\"p\", {}, \"Numbers \" + numbersInWords(other) + \".\"),
  ], [
    ...(rest.length ? [[\"rest\", ORDERS[word] + \" the other \" + rest.length + \" only\"]] : []),
    [\"\", \"Change nothing\"],
    [\"all\", \"Replace them: \" + word + \" all \" + (other.length + rest.length)],
  ]);
}

// What follows from every change of words: how many there are, what the buttons say, and that they are kept.
function changed() {
  const all = counts.accept + counts.reject + counts.withdraw;
  tally.textContent = all + \" of \" + rows.length + \" decided\" + (all ? \": \" + countsInWords() : \"\");
  recount();
  keepSoon();
  document.dispatchEvent(new CustomEvent(\"redline-changed\"));
}

// Undo: a stack of all that was done, each with its words and with what brings the former words back.

const acts = [];

// An act that changed the reviewer's name has the former one.
function remember(text, former, name = null) {
  if (former.length) acts.push({ text, former, name });
  showUndo();
}

function takeBack() {
  const last = acts.pop();
  if (!last) return tell(\"There is nothing to undo.\");
  const isRenamed = last.name !== null && last.name !== reviewer;
  if (isRenamed) beReviewer(last.name, foundUnder(last.name).last);
  replace(last.former.map(([at, word]) => [at, word]));
  showUndo();
  tell(\"Undone: \" + last.text + \".\" + (isRenamed ? \" The name is \" + (spelled(reviewer) || \"empty\") + \" again.\" : \"\"));
}

function showUndo() {
  const last = acts.at(-1);
  undo.disabled = !last;
  undo.textContent = last ? \"Undo: \" + last.text : \"Undo\";
  undo.title = [\"Undo (u)\", ...acts.slice(-10).reverse().map((it) => it.text)].join(\"\\n\");
}

// Filters: which rows are shown.

function offer(select, ...groups) {
  select.append(make(\"option\", { value: \"\", textContent: \"all\" }));
  for (const [label, options] of groups)
    select.append(make(\"optgroup\", { label }, ...options.map(([value, textContent]) => make(\"option\", { value, textContent }))));
}

// How often each value is there.
function counted(values) {
  const found = new Map();
  for (const it of values) found.set(it, (found.get(it) || 0) + 1);
  return Array.from(found);
}

function offerFilters() {
  offer(authors, [\"Author\", counted(authorsOf).map(([it, count]) => [\"=\" + it, (spelled(it) || \"no name\") + \" (\" + count + \")\"])]);
  offer(kinds, [\"Kind\", counted(kindsOf).map(([it, count]) => [it, KINDS[it] + \" (\" + count + \")\"])], ...formats(), ...hiddenTexts());
  offer(states,
    [\"By you\", [[\"s:\", \"not decided\"], ...Object.keys(DONE).map((it) => [\"s:\" + it, DONE[it]])]],
    [\"By others\", [[\"differ\", \"differ from you\"]]],
    [\"In the journals\", [[\"v:open\", \"open\"], [\"v:accept\", \"accepted\"], [\"v:reject\", \"rejected\"], [\"v:disputed\", \"disputed\"]]]);
}

// Changes of format that are of language only, and the others, where there are both.
function formats() {
  const changes = changesOf.filter((it) => it);
  const languages = changes.filter((it) => it === LANGUAGE).length;
  if (!languages || languages === changes.length) return [];
  return [[\"Format\", [[\"f:other\", \"not only language (\" + (changes.length - languages) + \")\"], [\"f:language\", LANGUAGE + \" (\" + languages + \")\"]]]];
}

// Changes of hidden text, where there are any.
function hiddenTexts() {
  return isHiddenAt.size ? [[\"Text\", [[\"h:hidden\", \"hidden text (\" + isHiddenAt.size + \")\"]]]] : [];
}

function isOfKind(at, kind) {
  if (kind === \"h:hidden\") return isHiddenAt.has(at);
  if (kind === \"f:language\") return changesOf[at] === LANGUAGE;
  return kind === \"f:other\" ? changesOf[at] !== \"\" && changesOf[at] !== LANGUAGE : kind === kindsOf[at];
}

// Whether the row at a place is one that the filter leaves, by what is chosen and typed now.
function matcher() {
  const [author, kind, state] = [authors.value, kinds.value, states.value];
  const sought = plainText(search.value).trim();
  const hasState = (at) => (state === \"differ\" ? differs(at) :
    state.startsWith(\"s:\") ? state === \"s:\" + words[at] : state === \"v:\" + verdictsOf[at]);
  return (at) => (!author || author === \"=\" + authorsOf[at]) && (!kind || isOfKind(at, kind)) &&
    (!state || hasState(at)) && (!sought || sought === String(at + 1) || searchText(at).includes(sought));
}

// What was chosen and typed when the rows were filtered.
let filtered = \"\";

function chosenFilter() {
  return [authors.value, kinds.value, states.value, search.value].join(\"\\n\");
}

function filter() {
  filtered = chosenFilter();
  showRows(allPlaces().filter(matcher()));
  recount();
}

function showAll() {
  for (const it of [authors, kinds, states, search]) it.value = \"\";
  filter();
}

// What the filter leaves as words are now, and how many of these can be decided.
function left() {
  const matches = matcher();
  return rows.reduce((sum, _, at) => sum + (!lockedAt[at] && matches(at) ? 1 : 0), 0);
}

function recount() {
  const count = left();
  acceptAll.textContent = \"Accept these \" + count;
  rejectAll.textContent = \"Reject these \" + count;
  acceptAll.disabled = rejectAll.disabled = count === 0;
}

// The text in which a change is searched: its kind, its clause, its place, what it changes, its author, who spoke of it, the comments on
// it, and the paragraph or row that it stands in.

const searchTexts = [];
const blockTexts = new Map();

function plainText(text) {
  return text.normalize(\"NFKC\").toLowerCase().replace(/\\s+/g, \" \");
}

function searchText(at) {
  if (searchTexts[at] === undefined) {
    const blocks = new Set(placesOf(rows[at]).map(blockOf).filter((it) => it));
    const said = saysOn(at).map((it) => it.who);
    searchTexts[at] = plainText([KINDS[kindsOf[at]], clausesOf[at], placeNames[at], changesOf[at], authorsOf[at], ...said, ...threadsOn([at]).flatMap(threadOf).map(remarkInWords)].join(\" \")) + \" \" + Array.from(blocks, textOfBlock).join(\" \");
  }
  return searchTexts[at];
}

// The row or the paragraph of an element of a change; a change of a table's or a page's format has none.
function blockOf(place) {
  return place.closest(\".edge\") ? place.closest(\"tr\") : place.closest(\"p, .p, td\");
}

// Its text, without the signs of comments.
function textOfBlock(block) {
  if (!blockTexts.has(block)) blockTexts.set(block, plainText(block.querySelector(\".remark\") ? textWithoutRemarks(block) : block.textContent));
  return blockTexts.get(block);
}

function textWithoutRemarks(block) {
  const walker = document.createTreeWalker(block, NodeFilter.SHOW_TEXT);
  let text = \"\";
  while (walker.nextNode()) if (!walker.currentNode.parentElement.closest(\".remark\")) text += walker.currentNode.data;
  return text;
}

// The browser's own store keeps words by document and name, so that a page that is closed loses none.
//
//     redline DIGEST          the name that was used last
//     redline DIGEST/NAME     {\"time\": .., \"words\": [GROUP ..], \"saved\": {\"time\": .., \"sequence\": .., \"words\": [GROUP ..]}}
//
// A GROUP is {\"word\": \"accept\", \"sequence\": 2, \"numbers\": \"1-3,7\"}; the word \"\" is one that was taken away. Only places whose
// word changed are written, after the store was read again, since another window may have written into it.

// How far the number of a saved journal is above those of the page, at most.
const MOST_SAVED = 1000000;

let reviewer = \"\";
let saved = { time: 0, sequence: 0, words: new Map() };
const unkept = new Set();
let waiting = 0;
let isKeeping = true;
// Whether it was answered what becomes of the words that were found on opening.
let isAnswered = false;
let isAskingAboutWindow = false;

function storeKey(name) {
  return \"redline \" + digest + \"/\" + name;
}

function stored(key) {
  try {
    return localStorage.getItem(key) || \"\";
  } catch {
    return \"\";
  }
}

// The names under which this browser keeps words for this document.
function keptNames() {
  try {
    const start = storeKey(\"\");
    return Object.keys(localStorage).filter((it) => it.startsWith(start)).map((it) => it.slice(start.length));
  } catch {
    return [];
  }
}

// What is kept under a name. A number that is out of all reason was written by another file, and doesn't count.
function recordOf(name) {
  const found = record(stored(storeKey(name)));
  const most = greatestOf(name) + MOST_SAVED;
  for (const it of found.words.values()) if (it.sequence > most) it.sequence = greatestOf(name) + 1;
  return found.saved.sequence <= most ? found : { ...found, saved: record(\"\").saved };
}

// What a text of the store says; what can't be read is as if nothing were kept.
function record(text) {
  try {
    const { time, words: groups, saved: last } = text.startsWith(\"{\") ? JSON.parse(text) : { words: lettered(text) };
    const sequence = last && isSequence(last.sequence) ? last.sequence : 0;
    return {
      time: Number(time) || 0,
      words: ungrouped(groups),
      saved: { time: Number(last && last.time) || 0, sequence, words: new Map(Array.from(ungrouped(last && last.words), ([at, it]) => [at, it.word])) },
    };
  } catch {
    return record(\"\");
  }
}

// What pages of former versions kept: a letter for each change.
function lettered(text) {
  return Array.from(text, (letter, at) => ({ word: WORDS.find((it) => LETTERS[it] === letter), sequence: 1, numbers: String(at + 1) }));
}

function isSequence(number) {
  return Number.isInteger(number) && number > 0 && number <= LARGEST;
}

// The words of groups by place. A place is in one group at most, so there is an end to what a strange text can ask for.
function ungrouped(groups) {
  const found = new Map();
  let count = 0;
  for (const { word, sequence, numbers } of groups || []) {
    if (!(word === \"\" || WORDS.includes(word)) || !isSequence(sequence)) continue;
    for (const number of listed(numbers)) {
      count += 1;
      if (count > rows.length) throw new RangeError(\"more numbers than changes\");
      found.set(number - 1, { word, sequence });
    }
  }
  return found;
}

// The numbers of a list such as 1-3,7, of those that the document has.
function* listed(numbers) {
  for (const range of String(numbers).split(\",\")) {
    const [first, last = first] = range.split(\"-\").map(Number);
    for (let number = first; number > 0 && number <= Math.min(last, rows.length); number += 1) yield number;
  }
}

function grouped(entries) {
  const groups = new Map();
  for (const [at, { word, sequence }] of Array.from(entries).sort(([one], [other]) => one - other)) {
    const key = word + \" \" + sequence;
    if (!groups.has(key)) groups.set(key, { word, sequence, ranges: [] });
    const { ranges } = groups.get(key);
    if (ranges.length && ranges.at(-1)[1] === at) ranges.at(-1)[1] = at + 1;
    else ranges.push([at + 1, at + 1]);
  }
  return Array.from(groups.values(), ({ word, sequence, ranges }) =>
    ({ word, sequence, numbers: ranges.map(([first, last]) => (first === last ? String(first) : first + \"-\" + last)).join(\",\") }));
}

function recordText({ time, words: entries, saved: last }) {
  const of = Array.from(last.words, ([at, word]) => [at, { word, sequence: last.sequence }]);
  return JSON.stringify({ time, words: grouped(entries), saved: { time: last.time, sequence: last.sequence, words: grouped(of) } });
}

function keepSoon() {
  waiting = waiting || setTimeout(keep, 300);
}

// Writes the words that changed into what is kept now, and those that are there no more.
function keep() {
  clearTimeout(waiting);
  waiting = 0;
  const now = recordOf(reviewer);
  for (const at of decidedPlaces()) if (!now.words.has(at)) unkept.add(at);
  if (!unkept.size && saved.sequence <= now.saved.sequence) return;
  for (const at of unkept) now.words.set(at, { word: words[at], sequence: sequenceAt[at] });
  unkept.clear();
  write(reviewer, { time: Date.now(), words: now.words, saved: saved.sequence > now.saved.sequence ? saved : now.saved });
}

function write(name, now) {
  store(storeKey(name), recordText(now));
  store(\"redline \" + digest, reviewer);
}

function store(key, text) {
  try {
    localStorage.setItem(key, text);
  } catch {
    if (isKeeping) tell(\"This browser keeps nothing: save your journal before you close the page.\", true);
    isKeeping = false;
  }
}

// Another window of this browser wrote words under this name: they come in here, and words of this window that would be
// replaced are asked about.
async function hearStore({ key }) {
  if (!isAnswered || (key !== null && key !== storeKey(reviewer))) return;
  keepSoon();
  saved = laterSaved();
  takeIn(wordsElsewhere().filter(([at]) => !words[at]));
  if (!wordsElsewhere().length || isAskingAboutWindow) return;
  isAskingAboutWindow = true;
  const answer = await askAboutWindow(wordsElsewhere());
  isAskingAboutWindow = false;
  if (answer === \"theirs\") takeIn(wordsElsewhere());
  else keepMine(wordsElsewhere());
}

// What was saved last under this name: by this window, or by another one.
function laterSaved() {
  const other = foundUnder(reviewer).last;
  return other.sequence > saved.sequence ? other : saved;
}

// What is kept under this name and isn't what this window has.
function wordsElsewhere() {
  return Array.from(recordOf(reviewer).words).filter(([at, it]) =>
    !lockedAt[at] && !unkept.has(at) && it.word !== words[at] && it.sequence > greatestOf(reviewer));
}

function takeIn(entries) {
  if (!entries.length) return;
  const places = entries.map(([at]) => at);
  remember(many(places.length, \"word\") + \" from another window\", replace(entries.map(([at, it]) => [at, it.word, it.sequence])));
  for (const at of places) unkept.delete(at);
  tell(\"Another window of this page decided \" + many(places.length, \"change\") + \": \" + numbersInWords(places) + \". They are shown here too.\");
}

function keepMine(entries) {
  for (const [at] of entries) say(at, words[at]);
  changed();
}

function askAboutWindow(entries) {
  const places = entries.map(([at]) => at);
  return ask(\"Another window replaced \" + many(entries.length, \"word\") + \" of yours\", [
    paragraph(\"In another window of this page, \" + many(entries.length, \"change\") + \" that you decided here got another word: numbers \" + numbersInWords(places) + \".\"),
    make(\"ul\", {}, ...entries.slice(0, 12).map(([at, it]) => make(\"li\", {}, (at + 1) + \": here \" + DONE[words[at]] + \", there \" + (DONE[it.word] || \"not decided\")))),
  ], [[\"mine\", \"Keep the words of this window\"], [\"theirs\", \"Take those of the other window\"]]);
}

// What this browser kept: it is told, and used only where the reviewer says so.

// Of what is kept under a name: the words that can be used, those of an earlier round, and those on locked changes.
function foundUnder(name) {
  const { time, words: entries, saved: last } = recordOf(name);
  const said = Array.from(entries).filter(([, it]) => it.word);
  const isLater = ([, it]) => it.sequence > greatestOf(name);
  return {
    name, time,
    // Words that were saved before a later journal of this page count no more.
    last: last.sequence > greatestOf(name) ? last : { ...last, words: new Map() },
    usable: said.filter((it) => isLater(it) && !lockedAt[it[0]]),
    older: said.filter((it) => !isLater(it) && !lockedAt[it[0]]),
    aside: said.filter(([at]) => lockedAt[at]),
  };
}

function isFound({ usable, older, aside, last }) {
  return usable.length + older.length + aside.length + last.words.size > 0;
}

// On opening, nothing that was found is applied before the answer.
async function askOnOpening() {
  const found = keptNames().map(foundUnder).filter(isFound);
  if (!found.length) return;
  const last = stored(\"redline \" + digest);
  found.sort((one, other) => (other.name === last) - (one.name === last) || other.time - one.time);
  const answer = await askAboutFound(\"Found in this browser\", found);
  if (isAnswered) return;
  if (!answer.value) return tell(\"Nothing that this browser kept was used. Type your name to go on.\");
  useFound(answer.found, answer);
}

async function askAboutFound(title, found) {
  const choices = found.map((it, place) => make(\"input\", { type: \"radio\", name: \"found\", value: place, checked: place === 0 }));
  const older = make(\"input\", { type: \"checkbox\", id: \"older\" });
  const olderCount = found.reduce((sum, it) => sum + it.older.length, 0);
  const value = await ask(title, [
    paragraph(\"For this document, this browser kept what was decided before:\"),
    ...found.map((it, place) => make(\"label\", { className: \"found\" }, ...(found.length > 1 ? [choices[place]] : []), make(\"span\", {}, ...foundInWords(it)))),
    ...(olderCount ? [make(\"label\", { className: \"found\" }, older,
      make(\"span\", { textContent: \"Bring back the words of an earlier round too. They would count above the later ones in this page.\" }))] : []),
    paragraph(make(\"small\", { textContent: \"Other pages that were opened from this computer's disk can write there too. If this isn't what you decided, begin anew.\" })),
  ], [[\"use\", \"Use what was found\"], [\"anew\", \"Begin anew\"], [\"\", \"I am someone else\"]]);
  return { value, found: found[Math.max(0, choices.findIndex((it) => it.checked))], isOlder: older.checked };
}

function foundInWords({ name, time, last, usable, older, aside }) {
  const counted = countsInWords(tallied(usable.map(([, it]) => it.word)));
  return [
    make(\"strong\", {}, name ? isolated(name) : \"without a name\"), \": \" + many(usable.length, \"word\") + (usable.length ? \" (\" + counted + \")\" : \"\") + \", last changed on \" + dated(time) + \".\",
    last.sequence ? \" Saved as journal number \" + last.sequence + \" on \" + dated(last.time) + \".\" : \"\",
    older.length ? \" \" + many(older.length, \"word\") + \" of an earlier round: this page has a later journal of this name.\" : \"\",
    aside.length ? \" \" + many(aside.length, \"word\") + \" on locked changes: kept, but not used on this page.\" : \"\",
  ];
}

// Puts what was found under a name in place of the words of the page, or begins anew under that name. Either is undone as
// one act, which brings back the former name, or what was found and not used.
function useFound(found, { value, isOlder }) {
  const isUsed = value === \"use\";
  const name = reviewer;
  beReviewer(found.name, found.last);
  const come = found.usable.map(([at, it]) => [at, it.word, it.sequence]);
  const there = new Set(come.map(([at]) => at));
  const gone = isUsed ? decidedPlaces().filter((at) => !there.has(at)) : [];
  const former = replace([...gone.map((at) => [at, \"\"]), ...come]);
  for (const [at] of found.usable) unkept.delete(at);
  const count = many(come.length, \"word\");
  if (isUsed) remember(count + \" brought back\", former, name);
  else remember(\"begun anew\", replace(decidedPlaces().map((at) => [at, \"\"])), come.length ? null : name);
  if (isUsed && isOlder) act(many(found.older.length, \"word\") + \" of an earlier round brought back\", found.older.map(([at, it]) => [at, it.word]));
  tell(isUsed ? count + \" of \" + (spelled(reviewer) || \"no name\") + \" brought back.\" : \"Begun anew: nothing is decided.\" + (saved.words.size ? \" Your next journal withdraws what you saved before.\" : \"\"));
}

// Names of reviewers: which can stand in a journal, which were probably meant, and what goes along with a new name.

function greatestOf(name) {
  return sequences.get(name) || 0;
}

// The number of the reviewer's next journal: above those of the page and of the last one that was saved, and not below that of
// a word that came from a later page.
function nextSequence() {
  return Math.max(greatestOf(reviewer) + 1, saved.sequence + 1, furthest);
}

// Why a journal can't be written under a name, or the empty text.
function refusal(name) {
  const bytes = new TextEncoder().encode(name).length;
  if (bytes === 0) return \"A journal needs a name: please type yours first.\";
  if (bytes > 255) return \"A journal can't hold this name: it has \" + bytes + \" bytes, and may have 255.\";
  if (/[\\u0000-\\u001f\\u007f]/.test(name)) return \"A journal can't hold this name: it has a tab or another control character.\";
  if (/\\p{Surrogate}/u.test(name)) return \"A journal can't hold this name: it has half a character.\";
  const greatest = Math.max(greatestOf(name), name === reviewer ? saved.sequence : recordOf(name).saved.sequence);
  return greatest === LARGEST ? \"No sequence number is left for \" + spelled(name) + \".\" : \"\";
}

// A name with its unusual spaces and its invisible characters spelled out.
function spelled(name) {
  return name.replace(/[^\\S ]|\\p{Cf}|\\p{Cc}| {2,}|^ | $/gu, (found) =>
    Array.from(found, (it) => \"[\" + (SPELLED[it] || \"U+\" + it.codePointAt(0).toString(16).toUpperCase().padStart(4, \"0\")) + \"]\").join(\"\"));
}

// What two names have in common that differ only in case, in how letters are composed, in spaces or in what isn't seen.
function likeness(name) {
  return name.normalize(\"NFKC\").replace(/\\p{Cf}/gu, \"\").replace(/[\\s\\p{Cc}]+/gu, \" \").trim().toUpperCase().toLowerCase();
}

function knownNames() {
  return Array.from(new Set([...sequences.keys(), ...keptNames()])).filter((it) => it);
}

function offerNames() {
  known.replaceChildren(...knownNames().map((value) => make(\"option\", { value })));
}

// The name that was meant: where it is nearly that of a known reviewer, the one who types is asked. Null is no answer.
async function meant(name) {
  const names = knownNames();
  const near = names.includes(name) ? [] : names.filter((it) => likeness(it) === likeness(name));
  if (!near.length) return name;
  const answer = await ask(\"Is this your name?\", [
    paragraph(\"You typed \", make(\"strong\", {}, isolated(name)), \". This document already knows \",
      ...near.flatMap((it, place) => [place ? \" and \" : \"\", make(\"strong\", {}, isolated(it))]), \", which is another name for a journal.\"),
  ], [...near.map((it, place) => [String(place), \"I am \" + spelled(it)]), [\"typed\", \"I am \" + spelled(name)], [\"\", \"Go back\"]]);
  return answer === \"\" ? null : answer === \"typed\" ? name : near[Number(answer)];
}

// Takes the name that was typed, one at a time. It comes to whether the reviewer now has that name.
let renaming = Promise.resolve(true);

function rename() {
  renaming = renaming.then(renameNow);
  return renaming;
}

async function renameNow() {
  const typed = person.value.replace(/^ +| +$/g, \"\");
  if (!typed || typed === reviewer) return Boolean(typed);
  const why = refusal(typed);
  if (why) {
    tell(why, true);
    return false;
  }
  const name = await meant(typed);
  if (name === null || (name !== reviewer && !(await take(name)))) {
    person.value = reviewer;
    return false;
  }
  person.value = name;
  return true;
}

// Makes this the reviewer's name. Words of the page go along, and those kept under the name come back, as is answered.
async function take(name) {
  keep();
  const found = foundUnder(name);
  const count = decidedPlaces().length;
  if (isFound(found)) return count ? takeBoth(found) : takeFound(found);
  const answer = count && reviewer ? await askToTakeAlong(name, count) : \"along\";
  if (answer === \"along\") goAlong(found, decidedPlaces());
  else if (answer === \"anew\") useFound(found, { value: \"anew\" });
  return Boolean(answer);
}

async function takeFound(found) {
  const answer = await askAboutFound(\"Found under this name\", [found]);
  if (answer.value) useFound(found, answer);
  return Boolean(answer.value);
}

async function takeBoth(found) {
  const places = decidedPlaces();
  const kept = new Map(found.usable.map(([at, it]) => [at, it.word]));
  const other = places.filter((at) => kept.has(at) && kept.get(at) !== words[at]);
  const answer = await ask(\"This name has words of its own\", [
    paragraph(\"Kept for \", ...foundInWords(found)),
    paragraph(\"On this page, \" + many(places.length, \"change\") + \" \" + (places.length === 1 ? \"is\" : \"are\") + \" decided\" + (reviewer ? \" under the name \" : \".\"), ...(reviewer ? [isolated(reviewer), \".\"] : []),
      other.length ? \" Of these, \" + other.length + \" differ from what is kept: numbers \" + numbersInWords(other) + \".\" : \"\"),
  ], [
    [\"both\", other.length ? \"Take both; where they differ, what is on this page\" : \"Take both\"],
    [\"kept\", \"Take only what is kept\"],
    [\"\", \"Go back to the former name\"],
  ]);
  if (answer === \"kept\") useFound(found, { value: \"use\" });
  if (answer === \"both\") goAlong(found, places);
  return Boolean(answer);
}

function askToTakeAlong(name, count) {
  return ask(\"Whose words are these?\", [
    paragraph(many(count, \"change\") + \" on this page \" + (count === 1 ? \"was\" : \"were\") + \" decided under the name \", make(\"strong\", {}, isolated(reviewer)), \". Do they go on under \", make(\"strong\", {}, isolated(name)), \"?\"),
  ], [[\"along\", \"Yes: the name is mended, the words are the same\"], [\"anew\", \"No: begin anew as \" + spelled(name)], [\"\", \"Go back to \" + spelled(reviewer)]]);
}

// The words at these places go on under the name, on top of those that are kept under it.
function goAlong(found, places) {
  const former = reviewer;
  const mine = places.map((at) => [at, words[at]]);
  const here = new Set(places);
  const kept = found.usable.filter(([at]) => !here.has(at)).map(([at, it]) => [at, it.word, it.sequence]);
  beReviewer(found.name, found.last);
  if (!former) forgetNameless(places);
  remember(many(kept.length, \"word\") + \" brought back\", replace(kept), former);
  for (const [at] of kept) unkept.delete(at);
  replace(mine);
  keep();
  tell(!places.length ? \"\" : former ? \"What \" + spelled(former) + \" decided on this page goes on as \" + spelled(reviewer) + \".\" : kept.length ? many(kept.length, \"word\") + \" brought back.\" : \"\");
}

// Words that were decided without a name are kept under the name that they now have.
function forgetNameless(places) {
  const nameless = recordOf(\"\");
  for (const at of places) nameless.words.delete(at);
  write(\"\", nameless);
}

function beReviewer(name, last) {
  keep();
  unkept.clear();
  reviewer = person.value = name;
  saved = last;
  furthest = 0;
  store(\"redline \" + digest, name);
  pressAll();
  redrawAll();
  offerNames();
}

// Journals: the text of one, opening one, and saving the reviewer's own.

// The words of a journal that is saved now, by place. A change that has a word in a journal that was saved before and none
// now is withdrawn, so that the new journal counts in the same way whether or not the former one is used as well.
function entriesNow() {
  const isTakenAway = (at) => !words[at] && !lockedAt[at] && saved.words.has(at);
  return rows.map((_, at) => [at, words[at] || (isTakenAway(at) ? \"withdraw\" : \"\")]).filter(([, word]) => word);
}

function journal(name = reviewer) {
  const entries = entriesNow();
  const isRanked = ownRank > 0 && entries.length > 0;
  const sequence = name === reviewer ? nextSequence() : greatestOf(name) + 1;
  const lines = entries.map(([at, word]) => [sequence, at + 1, word, ...(isRanked ? [ownRank] : []), name].join(\"\\t\"));
  return [\"redline-journal \" + (isRanked ? 2 : 1), \"document \" + digest, \"revisions \" + rows.length, ...lines, \"\"].join(\"\\n\");
}

// The entries of a journal's text, or why it is none of this document, as the program says it.
function entriesOf(text, file) {
  const lines = text.split(\"\\n\");
  const [, version] = /^redline-journal ([12])$/.exec(lines[0]) || [];
  const [, document] = /^document ([0-9a-f]{64})$/.exec(lines[1]) || [];
  const [, count] = /^revisions (0|[1-9]\\d{0,9})$/.exec(lines[2]) || [];
  const form = version === \"2\" ? /^([1-9]\\d{0,9})\\t(0|[1-9]\\d{0,9})\\t(accept|reject|withdraw)\\t\\d\\t([^\\0-\\x1f\\x7f]+)$/ :
    /^([1-9]\\d{0,9})\\t(0|[1-9]\\d{0,9})\\t(accept|reject|withdraw)\\t([^\\0-\\x1f\\x7f]+)$/;
  const entries = lines.slice(3, -1).map((it) => form.exec(it)).map((it) => it && { sequence: Number(it[1]), at: Number(it[2]) - 1, word: it[3], who: it[4] });
  const isRight = (it) => it && it.sequence <= LARGEST && it.at < LARGEST && new TextEncoder().encode(it.who).length <= 255;
  const start = \"redline: journal \" + file + \": \";
  if (!version || !document || !count || Number(count) > LARGEST || lines.at(-1) !== \"\" || !entries.every(isRight)) return { why: start + \"malformed\" };
  if (document !== digest) return { why: start + \"document \" + document + \", expected \" + digest };
  if (Number(count) !== rows.length) return { why: start + \"revisions \" + count + \", expected \" + rows.length };
  return { entries };
}

async function openFile(file) {
  if (file.size > LARGEST_JOURNAL) return tell(\"redline: limit journal bytes \" + LARGEST_JOURNAL, true);
  let text;
  try {
    text = new TextDecoder(\"utf-8\", { fatal: true, ignoreBOM: true }).decode(await file.arrayBuffer());
  } catch {
    return tell(\"redline: journal \" + file.name + \": malformed\", true);
  }
  return openJournal(text, file.name);
}

// Makes the words of a journal those of the page. The next one that is saved counts above it.
async function openJournal(text, file = \"journal\") {
  const { entries, why } = entriesOf(text, file);
  if (why) return tell(\"This file can't be opened here. \" + why, true);
  const names = Array.from(new Set(entries.map((it) => it.who)));
  const typed = person.value.trim();
  const name = names.includes(typed) ? typed : names.length === 1 ? names[0] : \"\";
  if (!name) return tell(names.length ? \"This journal has words of \" + names.map(spelled).join(\", \") + \": type which name is yours, and open it again.\" : \"This journal says nothing.\", true);
  const own = entries.filter((it) => it.who === name && rows[it.at]);
  const sequence = own.reduce((greatest, it) => Math.max(greatest, it.sequence), 0);
  const come = lastWords(own);
  if (!(await mayOpen(file, name, come, sequence))) return tell(\"The journal wasn't opened: nothing was changed.\");
  useJournal(file, name, come, sequence);
}

// The words with the greatest sequence number on each change; where two of one number differ there is none.
function lastWords(entries) {
  const found = new Map();
  for (const { at, word, sequence } of entries) {
    const last = found.get(at);
    if (!last || last.sequence < sequence) found.set(at, { word, sequence });
    else if (last.sequence === sequence && last.word !== word) last.word = \"\";
  }
  return found;
}

async function mayOpen(file, name, come, sequence) {
  const lost = decidedPlaces().filter((at) => name !== reviewer || !come.has(at) || come.get(at).word !== words[at]);
  const isOld = sequence <= greatestOf(name);
  if (!lost.length && !isOld) return true;
  return (await ask(\"Open \" + file + \"?\", [
    paragraph(\"It has \" + many(come.size, \"word\") + \" of \", make(\"strong\", {}, isolated(name)), \", saved as journal number \" + sequence + \".\"),
    ...(isOld ? [paragraph(\"This page was made with a later journal of this name, number \" + greatestOf(name) + \". What you save would count above that one.\")] : []),
    ...(lost.length ? [paragraph(\"It takes the place of what is decided on this page: \" + many(lost.length, \"word\") + \" would be replaced or taken away (numbers \" + numbersInWords(lost) + \").\")] : []),
  ], [[\"\", \"Change nothing\"], [\"open\", \"Open it\" + (lost.length ? \", and replace \" + many(lost.length, \"word\") : \"\")]])) === \"open\";
}

function useJournal(file, name, come, sequence) {
  const last = recordOf(name).saved;
  const said = new Map(Array.from(come, ([at, it]) => [at, it.word]).filter(([, word]) => word));
  beReviewer(name, last.sequence > sequence ? last : { time: Date.now(), sequence, words: said });
  const changes = rows.map((_, at) => [at, said.get(at) || \"\"]).filter(([at, word]) => word || words[at]);
  act(file + \" opened\", changes);
  keep();
  const unclear = come.size - said.size;
  const locked = Array.from(said.keys()).filter((at) => lockedAt[at]).length;
  tell(many(said.size - locked, \"word\") + \" of \" + spelled(name) + \" opened from \" + file + \".\" +
    (locked ? \" \" + many(locked, \"word\") + \" on locked changes: left out.\" : \"\") +
    (unclear ? \" \" + many(unclear, \"change\") + \" had two words at once: please decide again.\" : \"\"));
}

// The name of the file in which a journal is saved: of at most 200 bytes, and one that every system takes.
function fileName(name) {
  const safe = (text) => text.replace(/[<>:\"/\\\\|?*\\u0000-\\u001f\\u007f-\\u009f]|\\p{Cf}/gu, \"_\").replace(/^[. ]+|[. ]+$/g, \"\");
  const document = fitting(safe(title.replace(/\\.(docx|docm|doc|xml)$/i, \"\")), 80);
  const whole = (document ? document + \".\" : \"\") + (fitting(safe(name), 190 - bytesOf(document)) || \"_\");
  return (/^(con|prn|aux|nul|com[0-9\\u00b9\\u00b2\\u00b3]|lpt[0-9\\u00b9\\u00b2\\u00b3])(\\.|$)/i.test(whole) ? \"_\" : \"\") + whole + \".journal\";
}

function bytesOf(text) {
  return new TextEncoder().encode(text).length;
}

// As much of a text as has this many bytes.
function fitting(text, bytes) {
  let fit = \"\";
  for (const letter of text) {
    if (bytesOf(fit + letter) > bytes) return fit;
    fit += letter;
  }
  return fit;
}

// Gives the journal to the browser, or to a page around this one that takes it, and remembers what was saved.
function saveNow() {
  saved = laterSaved();
  const [text, name, sequence] = [journal(), fileName(reviewer), nextSequence()];
  const entries = entriesNow();
  saved = { time: Date.now(), sequence, words: new Map(entries) };
  keep();
  pressAll();
  const isLeft = document.dispatchEvent(new CustomEvent(\"redline-save\", { cancelable: true, detail: { name, text } }));
  if (isLeft) download(text, name);
  tell((isLeft ? \"The browser was given \" : \"Saved as \") + name + (isLeft ? \" for its folder of downloads.\" : \".\") +
    (entries.length ? \" Send this file back.\" : \" It is empty: it says nothing of any change.\"));
}

function download(text, name) {
  const href = URL.createObjectURL(new Blob([text], { type: \"application/octet-stream\" }));
  make(\"a\", { href, download: name }).click();
  setTimeout(() => URL.revokeObjectURL(href), 60000);
}

// The summary that comes before a journal is saved: what the reviewer signs, in words.

// How many changes a part of the summary lists.
const LISTED = 300;

async function saveJournal() {
  const typed = person.value.replace(/^ +| +$/g, \"\");
  const why = refusal(typed);
  if (why) {
    tell(why, true);
    return person.focus();
  }
  if (!(await rename())) return;
  const name = fileName(reviewer);
  const isEmpty = entriesNow().length === 0;
  const answer = await ask(\"Before you save\", summary(), [
    [\"save\", isEmpty ? \"Save an empty journal\" : \"Save \" + name],
    [\"\", \"Go on deciding\"],
  ], true);
  if (answer === \"save\") saveNow();
}

function summary() {
  const entries = entriesNow();
  const all = tallied(entries.map(([, word]) => word));
  const undecided = allPlaces().filter(isUndecided).filter((at) => !saved.words.has(at));
  const locked = lockedAt.filter((it) => it).length;
  const opposed = entries.map(([at]) => at).filter((at) => against(at).length);
  return [
    paragraph(\"Journal number \" + nextSequence() + \" of \", make(\"strong\", {}, isolated(reviewer)), title ? \" for \" : \"\", title ? make(\"strong\", {}, isolated(title)) : \"\",
      ownRank ? \", with rank \" + ownRank : \"\", \".\"),
    countTable([...Object.keys(DONE).map((word) => [DONE[word], all[word]]), [\"not decided\", undecided.length], ...(locked ? [[\"locked\", locked]] : [])]),
    part(\"Against another reviewer\", opposed, (at) => againstInWords(at), true),
    part(\"Decided before, and changed\", changedPlaces(entries), (at) => changeInWords(at), true),
    part(\"Not decided\", undecided, () => \"\"),
    part(\"The journal in words\", entries.map(([at]) => at), (at) => DONE[words[at] || \"withdraw\"] + (words[at] ? \"\" : \" (taken away since it was saved)\")),
  ];
}

function countTable(counted) {
  return make(\"dl\", { className: \"counts\" }, ...counted.map(([name, count]) =>
    make(\"div\", {}, make(\"dt\", { textContent: name }), make(\"dd\", { textContent: count }))));
}

// A part of the summary: changes, each with its number, what it is about, and what is said of it.
function part(name, places, told, isOpen = false) {
  if (!places.length) return \"\";
  const made = make(\"details\", { className: \"part\", open: isOpen }, make(\"summary\", { textContent: name + \": \" + places.length }));
  const fillIn = () => made.children.length === 1 && made.append(...linesOf(places, told));
  made.addEventListener(\"toggle\", fillIn);
  if (isOpen) fillIn();
  return made;
}

function linesOf(places, told) {
  const lines = places.slice(0, LISTED).map((at) => make(\"li\", {}, goTo(at), \" \", make(\"span\", { className: \"about\" }, KINDS[kindsOf[at]] + \" by \", isolated(authorsOf[at])),
    told(at) ? \": \" : \"\", make(\"strong\", {}, told(at)), excerptOf([at])));
  return [make(\"ul\", {}, ...lines), places.length > LISTED ? paragraph(\"And \" + (places.length - LISTED) + \" more; the file that is saved has all of them.\") : \"\"];
}

// The number of a change, which leads to it.
function goTo(at) {
  const button = make(\"button\", { type: \"button\", className: \"number\", textContent: at + 1, ariaLabel: \"Go to change \" + (at + 1) });
  button.addEventListener(\"click\", () => {
    closeDialog();
    if (!isShown(at)) showAll();
    chooseChange(at);
  });
  return button;
}

function againstInWords(at) {
  const others = against(at).map((it) => spelled(it.who) + \" \" + DONE[it.word] + (it.rank ? \" with rank \" + it.rank : \"\"));
  return \"you \" + DONE[words[at]] + \", \" + others.join(\", \");
}

// The words that the reviewer had on a change before: in a journal that was saved, else in those of this page.
function formerWords(at) {
  return saved.words.has(at) ? [saved.words.get(at)] : ownOn(at);
}

function changedPlaces(entries) {
  return entries.filter(([at, word]) => formerWords(at).some((it) => it !== word)).map(([at]) => at);
}

function changeInWords(at) {
  return formerWords(at).map((it) => DONE[it]).join(\" and \") + \" before, now \" + DONE[words[at] || \"withdraw\"];
}

// Help: all that a reviewer has to know, behind the key ?.

const KEYS = [
  [\"j\", \"go to the next change\"], [\"k\", \"go back\"],
  [\"a\", \"accept the change that is chosen\"], [\"r\", \"reject it\"], [\"w\", \"withdraw your earlier word on it\"],
  [\"n\", \"the next change that you haven't decided\"], [\"d\", \"the next disputed one\"], [\"o\", \"the next where others differ from you\"],
  [\"e\", \"open or close an edit of several changes\"], [\"u\", \"undo\"], [\"/\", \"search\"], [\"?\", \"this help\"],
];
const HELP = [
  [\"What you see\", \"What someone inserted is underlined, what someone deleted is struck through, each in the colour of its author. A \\u00b6 is the end of a paragraph that was inserted or deleted: accept a deleted one, and the two paragraphs become one. Moved text is underlined or struck through twice. A bar at the edge stands for a change of format, or for a row of a table: a full bar for an inserted row, a dashed one for a deleted row. The number before a paragraph is that of its clause, in each view.\"],
  [\"Comments\", \"A small sign such as c1 stands where a comment is: press it to read the comment and the answers to it, and what it is on is tinted. Comments on a change stand in its row too, and comments that are nowhere in the text are at the end. The sign of a note leads to the note, and back.\"],
  [\"Decide\", \"Choose a change, in the document or in the list, and accept or reject it. The same key or button again takes your word away. A change that you leave alone is left to the others. A locked change can't be decided here. After a decision the next undecided change is chosen; \\\"Go on by itself\\\" under \\\"Filter\\\" switches that off.\"],
  [\"Edits\", \"Changes that were one act, such as a replaced word or a deleted row, are one row with one decision. \\\"7 changes\\\" in it, or the key e, shows them one by one. A decision on the row is for all of them that aren't decided. \\\"Edits as one row\\\" under \\\"Filter\\\" switches that off. Everything is counted by single changes.\"],
  [\"Withdraw\", \"Takes back what you said in an earlier round. It is there only where the page knows of an earlier word of yours: in the journals with which it was made, or in one that you saved or opened here.\"],
  [\"Many at once\", \"Filter by author, kind or state, or search. \\\"Accept these 12\\\" accepts what the filter leaves at that moment. Before another word of yours is replaced you are asked. \\\"Undo\\\" takes back one step after the other.\"],
  [\"Views\", \"With marks you see what was inserted and deleted. \\\"final\\\" shows the text that is written once the rest is accepted: what the journals and you decided is done, and what is open or disputed is tinted. \\\"original\\\" shows the rest as rejected.\"],
  [\"Your name\", \"Use the same name each time: it is how your journals are told from those of others. Where a name is nearly one that the document knows, you are asked which one you mean.\"],
  [\"Save and send\", \"\\\"Save my journal\\\" first shows what you decided, what goes against another reviewer, and what you changed. Then your browser puts the file into its folder for downloads. Send this file back. You may save again: the later journal counts above the former one.\"],
  [\"Take a break\", \"This browser keeps what you decided, for this document and your name. When the page is opened again it says what it found, and asks. Two windows of this page share their words. What is kept isn't on another computer, in a private window, or where the browser's data were cleared, and in some browsers not where the file was moved or renamed. Then use \\\"Open my journal\\\" with the file that you saved last.\"],
  [\"Who can change it\", \"Nothing goes over the network. But any page that is opened from this computer's disk can read and change what the browser keeps, so look at the summary before you save.\"],
];

function showHelp() {
  if (document.querySelector(\"dialog[open]\")) return;
  ask(\"Help\", [
    make(\"dl\", { className: \"help-keys\" }, ...KEYS.map(([key, text]) =>
      make(\"div\", {}, make(\"dt\", {}, make(\"kbd\", { textContent: key })), make(\"dd\", { textContent: text })))),
    paragraph(\"With the Shift key, N, D and O go back.\"),
    ...HELP.flatMap(([name, text]) => [make(\"h3\", { textContent: name }), paragraph(text)]),
  ], [[\"\", \"Close\"]], true);
}

// What is clicked and which keys are pressed.

document.addEventListener(\"click\", ({ target, detail }) => {
  if (pressSign(target)) return;
  const row = target.closest(\"aside > ol > li\");
  const place = target.closest(\"main [data-revision]\");
  if (row) choose(row);
  else if (place) choose(rowOfLine(lineAt(Number(place.dataset.revision) - 1)), true);
  // The second click of a double click would take the word away again.
  if (row && target.matches(\".buttons button[value]\") && detail < 2) pressButton(row, target, detail === 0);
  if (row && target.matches(\".open-edit\")) pressOpen(row);
});

// What leads to another place of the document, or opens a comment: whether it was one of these.
function pressSign(target) {
  const note = target.closest('sup[role=\"link\"]');
  if (note) goToElement(noteLinks.get(note));
  else if (target.matches(\".remark-sign\")) openRemark(target);
  else if (target.matches(\".remark-way\")) goToRemark(target);
  return note || target.matches(\".remark-sign, .remark-way, .remark-box, .remark-box *\");
}

// The row of an edit is opened or closed, and its button keeps the keyboard.
function pressOpen(row) {
  openLine(lineOfRow(row));
  row.querySelector(\".open-edit\").focus();
}

// A button that was pressed by key leaves the keyboard on the same button, of the next row where that is chosen.
function pressButton(row, button, isByKey) {
  decide(row, button.value);
  const next = current.querySelector('.buttons [value=\"' + button.value + '\"]:enabled');
  if (current === row) button.focus();
  else if (isByKey && next) next.focus();
}

const PRESSED = {
  j: () => step(1), k: () => step(-1), u: takeBack,
  e: () => (current ? openLine(editLineOf(current)) : tell(\"Choose a change first: the key j goes to the next one.\")),
  Escape: closeRemarks,
  n: () => seek(1, isUndecided, \"not decided\"), N: () => seek(-1, isUndecided, \"not decided\"),
  d: () => seek(1, isDisputed, \"disputed\"), D: () => seek(-1, isDisputed, \"disputed\"),
  o: () => seek(1, differs, \"one where others differ from you\"), O: () => seek(-1, differs, \"one where others differ from you\"),
  \"?\": showHelp,
  \"/\": () => {
    search.closest(\"details\").open = true;
    search.focus();
  },
};

// A key that is held down goes on through the list, and decides once.
document.addEventListener(\"keydown\", (event) => {
  if (event.ctrlKey || event.altKey || event.metaKey || event.target.closest(\"input[type=text], input[type=search], select, dialog\")) return;
  if (event.repeat && event.target.closest(\"button\")) event.preventDefault();
  if (event.key === \"Enter\" && noteLinks.has(event.target)) return goToElement(noteLinks.get(event.target));
  const word = WORDS.find((it) => LETTERS[it] === event.key);
  if (word && !event.repeat) decide(current, word);
  if (!Object.hasOwn(PRESSED, event.key) || (event.repeat && !\"jk\".includes(event.key))) return;
  event.preventDefault();
  PRESSED[event.key]();
});

search.addEventListener(\"keydown\", ({ key }) => {
  if (key !== \"Enter\" && key !== \"Escape\") return;
  if (key === \"Escape\") search.value = \"\";
  filter();
  list.focus();
});

let searching = 0;

search.addEventListener(\"input\", () => {
  clearTimeout(searching);
  searching = setTimeout(filter, 200);
});

// For a page around this one, in whose frame it stands: what it can ask and be told. A page that stands alone has the same,
// and nobody listens. On every change the document has the event `redline-changed`, and before a journal is saved
// `redline-save`, which is cancelled by whoever saved it.

window.redline = {
  journal: (name = reviewer) => journal(name),
  refusal: (name = reviewer) => refusal(name),
  name: () => reviewer,
  choose: (number) => rows[number - 1] && chooseChange(number - 1),
  openJournal: (text, file) => openJournal(text, file),
  state: () => ({ name: reviewer, typed: person.value, record: recordText(recordNow()), acts: Array.from(acts) }),
  restore,
};

function recordNow() {
  const of = decidedPlaces().map((at) => [at, { word: words[at], sequence: sequenceAt[at] }]);
  return { time: Date.now(), words: new Map(of), saved };
}

// Puts back what `state` gave, into a page of the same document.
function restore(state) {
  closeDialog();
  isAnswered = true;
  const former = record(state.record);
  beReviewer(state.name, former.saved);
  person.value = state.typed;
  const gone = decidedPlaces().filter((at) => !former.words.has(at)).map((at) => [at, \"\"]);
  replace([...gone, ...Array.from(former.words, ([at, it]) => [at, it.word, it.sequence])]);
  acts.splice(0, acts.length, ...state.acts);
  showUndo();
}

// A page that a browser saved as it was seen holds what this script had made, so it can't begin anew: it is only read.

const isCopy = document.querySelector(\"body > header\") !== null;

function tellCopy() {
  for (const it of document.querySelectorAll(\"dialog, .copy\")) it.remove();
  for (const it of document.querySelectorAll(\"body > header, aside\")) it.inert = true;
  addEventListener(\"keydown\", (event) => event.stopImmediatePropagation(), true);
  addEventListener(\"click\", (event) => event.stopImmediatePropagation(), true);
  main.prepend(make(\"p\", { className: \"copy\", role: \"alert\" },
    make(\"strong\", {}, \"This is a copy that a browser saved. \"),
    \"It shows what was seen then, and nothing can be decided in it. To decide, open the file that you were sent, or ask its sender for it once more. To keep that file, copy it, and don't save it from a browser.\"));
}

// What is heard, and how the page begins.

for (const select of [authors, kinds, states]) select.addEventListener(\"change\", filter);
acceptAll.addEventListener(\"click\", () => decideShown(\"accept\"));
rejectAll.addEventListener(\"click\", () => decideShown(\"reject\"));
undo.addEventListener(\"click\", takeBack);
person.addEventListener(\"change\", rename);
save.addEventListener(\"click\", saveJournal);
help.addEventListener(\"click\", showHelp);
openButton.addEventListener(\"click\", () => file.click());
file.addEventListener(\"change\", async () => {
  if (file.files[0]) await openFile(file.files[0]);
  file.value = \"\";
});
document.addEventListener(\"dragover\", (event) => event.preventDefault());
document.addEventListener(\"drop\", (event) => {
  event.preventDefault();
  if (event.dataTransfer.files[0]) openFile(event.dataTransfer.files[0]);
});
together.addEventListener(\"change\", () => {
  store(\"redline setting together\", together.checked ? \"yes\" : \"no\");
  showAnew();
});
advance.addEventListener(\"change\", () => store(\"redline setting advance\", advance.checked ? \"yes\" : \"no\"));
addEventListener(\"storage\", hearStore);
addEventListener(\"pagehide\", () => waiting && keep());
addEventListener(\"beforeprint\", sayPrinted);
for (const kind of [\"beforeprint\", \"copy\"]) addEventListener(kind, seeAll);

function begin() {
  build();
  arrange();
  document.body.dataset.view = \"marks\";
  watchRows();
  advance.checked = stored(\"redline setting advance\") !== \"no\";
  together.checked = stored(\"redline setting together\") !== \"no\";
  offerNames();
  filter();
  changed();
  askOnOpening().then(() => (isAnswered = true));
}

if (isCopy) tellCopy();
else begin();
";
