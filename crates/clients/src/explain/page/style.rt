//! The style of a page.

pub(super) static STYLE: &str = r#":root {
  color-scheme: light dark;
  --paper: #fff; --ink: #1c1c1c; --faint: #5c5c5c; --line: #c9c9c9; --mark: #cdeccf; --here: #ffe79a; --link: #0b57a4;
  --char: #0b57a4; --look: #8a3b00; --repetition: #7b2a86; --group: #106b3a; --choice: #9c1c3c;
}
@media (prefers-color-scheme: dark) {
  :root {
    --paper: #16181c; --ink: #ececec; --faint: #a8a8a8; --line: #484c54; --mark: #1f5130; --here: #6b5600; --link: #8ec5ff;
    --char: #8ec5ff; --look: #ffb27a; --repetition: #e2a3ec; --group: #84d8a5; --choice: #ff9db3;
  }
}
body { margin: 0; background: var(--paper); color: var(--ink); font: 1rem/1.5 system-ui, sans-serif; }
main { max-width: 60rem; margin: 0 auto; padding: 1rem; }
h1 { font-size: 1.5rem; margin: 0.5rem 0; }
h2 { font-size: 1.2rem; margin: 1.5rem 0 0.5rem; }
p { margin: 0.5rem 0; max-width: 48rem; }
code, pre, .text { font-family: ui-monospace, "DejaVu Sans Mono", monospace; unicode-bidi: isolate-override; direction: ltr; }
pre.text { margin: 0.5rem 0; padding: 0.5rem; border: 1px solid var(--line); max-height: 14rem; overflow: auto; white-space: pre-wrap; overflow-wrap: anywhere; }
i { color: var(--faint); font-style: normal; font-size: 0.85em; }
mark { background: var(--mark); color: inherit; border-bottom: 2px solid var(--group); }
mark:empty { border-left: 2px solid var(--group); }
.wide { overflow-x: auto; }
table { border-collapse: collapse; }
caption { text-align: left; color: var(--faint); }
th, td { text-align: left; vertical-align: top; padding: 0.15rem 0.75rem 0.15rem 0; border-bottom: 1px solid var(--line); }
th { font-weight: normal; color: var(--faint); }
td.text { overflow-wrap: anywhere; }
td.here, th.here { min-width: 9rem; }
tr.visited { background: var(--here); }
tr.visited th { color: inherit; }
.tree, .tree ul, .tree ol { list-style: none; margin: 0; padding-left: 1.25rem; border-left: 1px solid var(--line); }
.tree { padding-left: 0; border: 0; }
.char > span, #pattern .char { color: var(--char); } .look > span, #pattern .look { color: var(--look); }
.repetition > span, #pattern .repetition { color: var(--repetition); } .group > span, #pattern .group { color: var(--group); }
.choice > span, #pattern .choice { color: var(--choice); } .sequence > span, #pattern .sequence { color: var(--ink); }
#pattern { overflow-wrap: anywhere; } .part { margin-left: 0.5rem; overflow-wrap: anywhere; } .marked { background: var(--here); }
.controls { display: flex; flex-wrap: wrap; gap: 0.5rem; align-items: center; }
.controls input { flex: 1 1 12rem; min-width: 8rem; }
button { font: inherit; color: inherit; background: transparent; border: 1px solid var(--line); border-radius: 0.25rem; padding: 0.25rem 0.75rem; }
:focus-visible { outline: 3px solid var(--link); outline-offset: 1px; }
#window { white-space: pre; overflow: hidden; text-align: center; }
#window b { background: var(--here); color: inherit; font-weight: bold; border: 1px solid var(--ink); }
#said { min-height: 8rem; }
#said p { margin: 0.1rem 0; }
#threads-box { overflow: auto; }
#fault { font-size: 1.1rem; color: var(--choice); }
#read .place { border-left: 0.2rem solid var(--choice); margin: 0 0.1rem; }
"#;
