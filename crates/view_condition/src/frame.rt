// The fixed text of the page around the view: its style, and a script that makes a table of the view's text. Without a browser that runs
// scripts the text itself is shown.

use desk::columns::{NUMBER_COLUMNS, STATEMENT_COLUMNS};
use language::NUMBER_DIGITS;
use view::{MARGIN, PART_COLUMNS};

// Where the view's lines are cut: the text of a part; the number and the text of a statement; the marks, of which the last is set off by
// two spaces.
const PART_TEXT: u32 = (PART_COLUMNS + 2) as u32;

const NUMBER_END: u32 = NUMBER_COLUMNS as u32;

const TEXT: u32 = (NUMBER_COLUMNS + 2) as u32;

const TEXT_END: u32 = (NUMBER_COLUMNS + 2 + STATEMENT_COLUMNS) as u32;

const MARKS: u32 = MARGIN as u32;

// Each answers whether all is written, and writes nothing after what isn't.
fn line(rt: &HostRuntime, text: &[u8]) -> bool {
    files::write(rt, text) && files::write(rt, b"\n")
}

// A text, and a number after it.
fn cut(rt: &HostRuntime, before: &[u8], n: u32) -> bool {
    let mut out = [0u8; NUMBER_DIGITS];
    let k = statement_writer::number(&mut out, 0, n);
    files::write(rt, before) && files::write(rt, &out[..k])
}

fn print_style(rt: &HostRuntime) -> bool {
    line(rt, b"<style>")
        && line(
            rt,
            b"body { font: 15px/1.5 sans-serif; margin: 0 1.5em 4em; color: #1a1a1a; background: #fff }",
        )
        && line(
            rt,
            b"h1, h2 { font: bold 20px/1.4 monospace; margin: .5em 0; overflow-wrap: anywhere } h2 { font-size: 15px }",
        )
        && line(
            rt,
            b"table, ol, pre { font: 14px/1.5 monospace } .last { margin: .3em 0 } thead th[tabindex] { cursor: pointer }",
        )
        && line(
            rt,
            b"button { font: inherit; color: inherit; background: none; border: 0; padding: 0 .1em; cursor: pointer }",
        )
        && line(
            rt,
            b":focus-visible { outline: 3px solid #0b57d0; outline-offset: 1px }",
        )
        && line(
            rt,
            b".split { display: grid; grid-template-columns: minmax(0, 1fr) 24em; gap: 1em; align-items: start }",
        )
        && line(
            rt,
            b".scroll { overflow: auto; max-height: 78vh; border: 1px solid #c4c4c4 }",
        )
        && line(
            rt,
            b"aside { max-height: 78vh; display: flex; flex-direction: column } aside h2 { margin: 0 }",
        )
        && line(
            rt,
            b"ol { overflow: auto; margin: 0; padding-left: 3em; min-height: 0 }",
        )
        && line(
            rt,
            b"li button { width: 100%; text-align: left; vertical-align: top; overflow-wrap: anywhere }",
        )
        && line(
            rt,
            b"table { border-collapse: separate; border-spacing: 0 } caption { text-align: left; font: 14px/1.5 sans-serif; padding: .2em .4em }",
        )
        && line(
            rt,
            b"th, td { padding: 0 .5em; text-align: center; border-bottom: 1px solid #dedede; background: #fff; font-weight: normal; color: #5e5e5e }",
        )
        && line(
            rt,
            b"th, td.true { color: #1a1a1a } thead th { position: sticky; top: 0; z-index: 2; border-bottom: 2px solid #1a1a1a; font-weight: bold }",
        )
}

// What stays in sight on a screen, and how the page is printed: the head on each sheet, nothing cut off.
fn print_layout(rt: &HostRuntime) -> bool {
    line(
        rt,
        b".whole, .number, .text { position: sticky; z-index: 1 } thead .whole, thead .number, thead .text { z-index: 3 }",
    ) && line(
        rt,
        b".whole { left: 0; width: 4ch; min-width: 4ch; border-right: 2px solid #1a1a1a }",
    ) && line(
        rt,
        b".number { left: calc(4ch + 1em + 2px); width: 5ch; min-width: 5ch; text-align: right }",
    ) && line(
        rt,
        b".text { left: calc(9ch + 2em + 2px); min-width: 32ch; text-align: left; white-space: pre; border-right: 1px solid #1a1a1a }",
    ) && line(
        rt,
        b"tr.on > * { background: #fdeec2 } thead th.on, li.on button { background: #ffd966 }",
    ) && line(
        rt,
        b"#told { position: fixed; left: 0; right: 0; bottom: 0; margin: 0; padding: .3em 1.5em; font: 14px/1.5 monospace; background: #1a1a1a }",
    ) && line(
        rt,
        b"#told { color: #fff; white-space: nowrap; overflow: hidden; text-overflow: ellipsis; z-index: 9 }",
    ) && line(rt, b"@page { size: A4 landscape; margin: 8mm }")
        && line(rt, b"@media print {")
        && line(
            rt,
            b"* { print-color-adjust: exact; -webkit-print-color-adjust: exact } body { margin: 0; font-size: 9pt } #told { display: none }",
        )
        && line(
            rt,
            b".scroll, aside, ol { max-height: none; overflow: visible; display: block; border: 0 } .split { display: flex; flex-direction: column-reverse }",
        )
        && line(
            rt,
            b"ol { columns: 2; font-size: 7pt } table { font-size: 8pt } thead { display: table-header-group } tr { break-inside: avoid }",
        )
        && line(
            rt,
            b"thead th, .whole, .number, .text { position: static } table.many { font-size: 7pt; line-height: 1.25 }",
        )
        && line(
            rt,
            b".many th, .many td { padding: 0 .25mm } .many .text { min-width: 0; padding-right: 1mm }",
        )
        && line(
            rt,
            b".many .whole, .many .number { width: auto; min-width: 0 } :focus-visible { outline: none }",
        )
        && line(rt, b"}")
        && line(rt, b"</style>")
}

// The page up to the view's text. Who prints the page may put the program's name in place of the words of title and heading.
pub fn print_head(rt: &HostRuntime) -> bool {
    line(rt, b"<!doctype html>")
        && line(rt, b"<html lang=\"en\"><head><meta charset=\"utf-8\">")
        && line(
            rt,
            b"<meta name=\"viewport\" content=\"width=device-width\">",
        )
        && line(rt, b"<title>A condition over a program</title>")
        && print_style(rt)
        && print_layout(rt)
        && line(rt, b"</head><body>")
        && line(rt, b"<h1>A condition over a program</h1>")
        && files::write(rt, b"<pre id=\"view\">")
}

// Elements are made by `make`. `show` marks part k and the statements at which it is true, -1 none, and tells it in the fixed line;
// `hold` keeps it marked; `column` is the part that a cell of the table is about.
fn print_functions(rt: &HostRuntime) -> bool {
    line(
        rt,
        b"var view = document.getElementById('view'), lines = view.textContent.split('\\n');",
    ) && line(
        rt,
        b"var told = /^parts ([0-9]+) /.exec(lines[lines.length - 2] || '');",
    ) && line(rt, b"if (!told) return;")
        && line(
            rt,
            b"var n = +told[1], parts = [], items = [], heads = [], rows = [], held = -1, page = document.createDocumentFragment();",
        )
        && line(rt, b"function make(kind, text, into, name) {")
        && line(
            rt,
            b"  var e = document.createElement(kind); e.textContent = text; e.className = name || ''; into.appendChild(e); return e;",
        )
        && line(rt, b"}")
        && line(
            rt,
            b"function head(text, name) { var e = make('th', text, top, name); e.scope = 'col'; return e; }",
        )
        && line(rt, b"function show(k, at) {")
        && line(
            rt,
            b"  items.forEach(function (e, j) { e.parentNode.classList.toggle('on', j === k); heads[j].classList.toggle('on', j === k); });",
        )
        && line(
            rt,
            b"  rows.forEach(function (r) { r.row.className = k >= 0 && r.marks[k] === '*' ? 'on' : ''; });",
        )
        && line(rt, b"  if (k < 0) return;")
        && line(
            rt,
            b"  var many = rows.filter(function (r) { return r.marks[k] === '*'; }).length, row = rows[at];",
        )
        && line(
            rt,
            b"  var here = row ? ' Statement ' + (at + 1) + ': ' + (row.marks[k] === '*' ? 'true.' : 'false.') : '';",
        )
        && line(
            rt,
            b"  status.textContent = k + 1 + '  ' + parts[k] + ': true at ' + many + ' of ' + rows.length + '.' + here;",
        )
        && line(rt, b"}")
        && line(
            rt,
            b"function hold(k) { held = held === k ? -1 : k; show(k); }",
        )
        && line(rt, b"function column(e) {")
        && line(
            rt,
            b"  var cell = e.closest('th, td'); if (!cell) return -1;",
        )
        && line(
            rt,
            b"  return cell.cellIndex === 0 ? n - 1 : cell.cellIndex < 3 ? -1 : cell.cellIndex - 3;",
        )
        && line(rt, b"}")
}

// A table with the whole condition first and a panel with the parts.
fn print_making(rt: &HostRuntime) -> bool {
    line(rt, b"var name = document.querySelector('h1').textContent;")
        && line(
            rt,
            b"var hint = 'Point at a part, or go to one with the Tab key: the statements at which it is true are marked.';",
        )
        && cut(rt, b"make('h2', lines[n - 1].slice(", PART_TEXT)
        && line(rt, b"), page);")
        && line(
            rt,
            b"var split = make('div', '', page, 'split'), scroll = make('div', '', split, 'scroll'), side = make('aside', '', split);",
        )
        && line(
            rt,
            b"scroll.tabIndex = 0; scroll.setAttribute('role', 'region'); scroll.setAttribute('aria-label', 'The table of the condition');",
        )
        && line(
            rt,
            b"make('h2', 'Parts', side); side.setAttribute('aria-label', 'Parts'); var list = make('ol', '', side); list.tabIndex = 0;",
        )
        && line(
            rt,
            b"var table = make('table', '', scroll, n > 20 ? 'many' : '');",
        )
        && line(
            rt,
            b"make('caption', name + ': the whole condition first, then its parts by number; \\u25cf true, \\u00b7 false', table);",
        )
        && line(
            rt,
            b"var top = make('tr', '', make('thead', '', table)), body = make('tbody', '', table);",
        )
        && line(
            rt,
            b"heads[n - 1] = head('', 'whole'); head('n', 'number'); head('statement', 'text');",
        )
        && line(rt, b"for (var k = 0; k < n; k++) {")
        && cut(rt, b"  parts[k] = lines[k].slice(", PART_TEXT)
        && line(rt, b"); heads[k] = heads[k] || head('', '');")
        && line(
            rt,
            b"  heads[k].textContent = k + 1; heads[k].title = parts[k]; heads[k].tabIndex = 0; items[k] = make('button', parts[k], make('li', '', list));",
        )
        && line(rt, b"}")
}

// A row for each statement: its marks and its cells, cut from the view's line.
fn print_rows(rt: &HostRuntime) -> bool {
    line(rt, b"lines.slice(n + 2, -2).forEach(function (line, at) {")
        && cut(
            rt,
            b"  var row = make('tr', '', body), marks = line.slice(",
            MARKS,
        )
        && cut(rt, b", ", MARKS - 1)
        && cut(rt, b" + n) + line.slice(", MARKS + 1)
        && line(rt, b" + n);")
        && line(
            rt,
            b"  function cell(k) { var is = marks[k] === '*'; return make('td', is ? '\\u25cf' : '\\u00b7', row, String(is)); }",
        )
        && cut(
            rt,
            b"  cell(n - 1).className += ' whole'; make('th', line.slice(0, ",
            NUMBER_END,
        )
        && line(rt, b").trim(), row, 'number').scope = 'row';")
        && cut(rt, b"  make('th', line.slice(", TEXT)
        && cut(rt, b", ", TEXT_END)
        && line(rt, b").trimEnd(), row, 'text').scope = 'row';")
        && line(rt, b"  for (var k = 0; k < n - 1; k++) cell(k);")
        && line(rt, b"  rows.push({ row: row, marks: marks });")
        && line(rt, b"});")
}

// The last line, the fixed line, and what pointing, the Tab key and a tap do.
fn print_answers(rt: &HostRuntime) -> bool {
    line(
        rt,
        b"make('p', lines[lines.length - 2], page, 'last'); var status = make('p', hint, page); status.id = 'told';",
    ) && line(rt, b"status.setAttribute('role', 'status');")
        && line(
            rt,
            b"function at(e) { return rows.findIndex(function (r) { return r.row === e.closest('tr'); }); }",
        )
        && line(
            rt,
            b"function answer(e) { var k = column(e.target); if (k >= 0) show(k, at(e.target)); }",
        )
        && line(
            rt,
            b"table.onmouseover = answer; table.addEventListener('focusin', answer); table.onmouseleave = function () { show(held); };",
        )
        && line(
            rt,
            b"table.onclick = function (e) { var k = column(e.target); if (k >= 0) hold(k); };",
        )
        && line(
            rt,
            b"table.onkeydown = function (e) { if (e.key === 'Enter') table.onclick(e); };",
        )
        && line(rt, b"items.forEach(function (e, k) {")
        && line(
            rt,
            b"  e.onmouseenter = e.onfocus = function () { show(k); }; e.onmouseleave = function () { show(held); }; e.onclick = function () { hold(k); };",
        )
        && line(rt, b"});")
        && line(rt, b"view.before(page); view.remove();")
}

// The rest of the page.
pub fn print_tail(rt: &HostRuntime) -> bool {
    line(rt, b"</pre>")
        && line(rt, b"<script>")
        && line(rt, b"(function () {")
        && print_functions(rt)
        && print_making(rt)
        && print_rows(rt)
        && print_answers(rt)
        && line(rt, b"}());")
        && line(rt, b"</script></body></html>")
}
