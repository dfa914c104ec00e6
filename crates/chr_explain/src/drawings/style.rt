//! How a page looks.

/// The style of a page: light or dark as the reader has it, in one column where there is little room.
pub(crate) const STYLE: &str = "<style>
:root { color-scheme: light dark; --back: #ffffff; --ink: #1b1b1b; --soft: #555555; --card: #f3f4f6; --line: #767676;
  --mark: #ffe08a; --mark-ink: #1b1b1b; --end: #a40000; }
@media (prefers-color-scheme: dark) {
  :root { --back: #14171a; --ink: #ececec; --soft: #b8b8b8; --card: #22272c; --line: #8f979f; --mark: #6a5000;
    --mark-ink: #ffffff; --end: #ff9c9c; }
}
* { box-sizing: border-box; }
body { margin: 0 auto; max-width: 80rem; padding: 1rem; background: var(--back); color: var(--ink);
  font: 1rem/1.5 system-ui, sans-serif; overflow-wrap: anywhere; }
h1 { font-size: 1.4rem; }
h2 { font-size: 1.15rem; margin: 1.5rem 0 .5rem; }
h3 { font-size: 1rem; margin: .75rem 0 .5rem; }
pre, code, text { font-family: ui-monospace, Menlo, Consolas, 'Liberation Mono', monospace; font-size: 13px; }
pre { margin: 0; padding: .75rem; overflow-x: auto; background: var(--card); border-radius: .4rem; }
mark { background: var(--mark); color: var(--mark-ink); }
.listing { counter-reset: line; }
.line { counter-increment: line; }
.line::before { content: counter(line); display: inline-block; width: 3ch; margin-right: 1.5ch; text-align: right;
  color: var(--soft); }
.line:last-child:empty { display: none; }
.ways { display: grid; grid-template-columns: minmax(0, 1fr) minmax(0, 1fr); gap: 1rem; margin: .75rem 0; }
@media (max-width: 700px) { .ways { grid-template-columns: minmax(0, 1fr); } }
ol { margin: 0; padding: 0; list-style: none; }
p { margin: .5rem 0; }
.store { margin: 0; padding: .4rem .6rem; background: var(--card); border: 1px solid var(--line);
  border-radius: .4rem; }
.store.end { border: 3px double var(--end); }
.store.end strong { color: var(--end); }
.step { margin: 0; padding: .4rem .6rem .4rem 1.6rem; position: relative; }
.step::before { content: '↓'; position: absolute; left: .5rem; color: var(--soft); }
.listing em { display: block; margin: .1rem 0 .5rem 4.5ch; padding: .3rem .6rem; border-left: 3px solid var(--end);
  font: .95rem/1.4 system-ui, sans-serif; white-space: normal; }
.listing, .told, .change { white-space: pre-wrap; }
details { margin: 1.5rem 0; }
summary { cursor: pointer; }
figure { margin: 0; overflow-x: auto; }
figcaption { color: var(--soft); }
svg { display: block; }
svg .box { fill: var(--card); stroke: var(--line); }
svg .edge { fill: none; stroke: var(--line); stroke-width: 1.5; }
svg .tip { fill: var(--line); }
svg .word { fill: var(--ink); }
svg .mark { fill: var(--soft); }
</style>
";
