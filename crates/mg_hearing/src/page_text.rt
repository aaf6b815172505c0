//! The fixed parts of a page. Escaped texts and the rows of a table come between them (`specs/Page.antt`).

/// The text before the script's name in the title.
pub(crate) const TITLE: &[u8] = b"<!DOCTYPE html>\n\
<html lang=\"en\">\n\
<head>\n\
<meta charset=\"utf-8\">\n\
<meta name=\"viewport\" content=\"width=device-width, initial-scale=1\">\n\
<meta name=\"color-scheme\" content=\"light dark\">\n\
<title>Who could hear whom: ";

/// The text before the script's name in the question.
pub(crate) const ASKED: &[u8] = b"</title>\n\
<style>\n\
:root{color-scheme:light dark;--ink:#1a1a1a;--paper:#fff;--line:#767676;--bar:#2763a5}\n\
@media (prefers-color-scheme:dark){:root{--ink:#e6e6e6;--paper:#16181c;--line:#8c8c8c;--bar:#7db4f0}}\n\
*{box-sizing:border-box}\n\
body{margin:0;background:var(--paper);color:var(--ink);font:16px/1.45 system-ui,sans-serif}\n\
main{max-width:80rem;margin:0 auto;padding:1rem}\n\
h1{font-size:1.6rem;margin:.5rem 0 1rem}\n\
h2{font-size:1.2rem;margin:1.5rem 0 .5rem}\n\
dl{display:grid;grid-template-columns:max-content 1fr;gap:.2rem 1rem;margin:0}\n\
dt{font-weight:600}\n\
dd{margin:0;overflow-wrap:anywhere}\n\
code{font-family:ui-monospace,monospace}\n\
pre{margin:0;padding:.5rem;border:1px solid var(--line);white-space:pre-wrap;overflow-wrap:anywhere}\n\
table{width:100%;border-collapse:collapse;font-size:.9rem}\n\
th,td{padding:.3rem .5rem;border:1px solid var(--line);text-align:left;vertical-align:top;font-variant-numeric:tabular-nums}\n\
thead th:last-child{width:30%}\n\
@media print,(min-width:64em){td:nth-last-child(2),td:nth-last-child(3){white-space:nowrap}}\n\
tbody th{font-weight:400}\n\
.gap th{font-style:italic}\n\
td:last-child{padding:.4rem .2rem;vertical-align:middle;overflow:hidden}\n\
td div{--l:clamp(0,(var(--a) - var(--t0))/(var(--t1) - var(--t0)),1);--r:clamp(0,(var(--b) - var(--t0))/(var(--t1) - var(--t0)),1);\
margin-left:calc(var(--l)*100%);width:calc((var(--r) - var(--l))*100%);min-width:3px;height:.9rem;border:1px solid var(--ink);background:var(--bar)}\n\
.gap div{background:repeating-linear-gradient(45deg,var(--ink) 0 2px,transparent 2px 6px)}\n\
.broken{padding:.6rem;border:3px solid;font-size:1.1rem}\n\
@media screen and (max-width:50em){\n\
table,tbody,tr,tbody th,td{display:block}\n\
thead{position:absolute;clip-path:inset(50%);width:1px;height:1px;overflow:hidden}\n\
tr{margin-bottom:.7rem;border:1px solid var(--line);padding:.3rem .5rem}\n\
tbody th,td{border:0;padding:.1rem 0}\n\
tr th::before{content:\"Listener: \"}\n\
tr td:nth-child(2)::before{content:\"Talker: \"}\n\
tr td:nth-child(3)::before{content:\"Context: \"}\n\
tr td:nth-child(4)::before,.gap td:nth-child(2)::before{content:\"From: \"}\n\
tr td:nth-child(5)::before,.gap td:nth-child(3)::before{content:\"Until: \"}\n\
.gap th::before,tr td:last-child::before{content:\"\"}\n\
dl{display:block}dd{margin-bottom:.4rem}}\n\
@page{size:landscape;margin:12mm}\n\
@media print{\n\
:root{color-scheme:light;--ink:#000;--paper:#fff;--line:#555;--bar:#777}\n\
body{font-size:9pt}table{font-size:8pt}main{max-width:none;padding:0}\n\
tr,pre,dd{break-inside:avoid}h2{break-after:avoid}thead{display:table-header-group}\n\
td div{-webkit-print-color-adjust:exact;print-color-adjust:exact}}\n\
</style>\n\
</head>\n\
<body>\n\
<main>\n\
<h1>Who could hear whom</h1>\n\
<h2>Question</h2>\n\
<dl>\n\
<dt>File</dt><dd>";

/// The text before the listener.
pub(crate) const LISTENER: &[u8] = b"</dd>\n<dt>Listener</dt><dd>";

/// The text before the talker.
pub(crate) const TALKER: &[u8] = b"</dd>\n<dt>Talker</dt><dd>";

/// The text before the time of `--from`.
pub(crate) const FROM: &[u8] = b"</dd>\n<dt>From</dt><dd>";

/// The text before the time of `--to`.
pub(crate) const UNTIL: &[u8] = b"</dd>\n<dt>To</dt><dd>";

/// The text before the table.
pub(crate) const ANSWER: &[u8] = b"</dd>\n\
</dl>\n\
<h2>Answer</h2>\n\
<p>Each row is a period in which the listener could hear the talker, from the first time up to, but not including, the\n\
second. If there is no such row, no listener in question could hear a talker in question. A period that began before\n\
the times in question, or ended after them, is shown whole. In a gap, the gateway did not run, or its clock was set\n\
ahead: the file doesn't say who could be heard.</p>\n";

/// The text after the table of a whole page, before the scale of the timeline.
pub(crate) const TABLE_END: &[u8] =
    b"</tbody>\n</table>\n<svg width=\"0\" height=\"0\" aria-hidden=\"true\"><style>:root{";

/// The text before the ticks of the timeline.
pub(crate) const TICKS: &[u8] = b"}</style></svg>\n<p>The timeline runs from tick ";

/// The text after the ticks of the timeline.
pub(crate) const WHOLE: &[u8] = b". A tick is 20 ms. The file was read to its end.</p>\n";

/// The text after the table of a page that is not whole, before the fault.
pub(crate) const BROKEN: &[u8] = b"</tbody>\n\
</table>\n\
<svg width=\"0\" height=\"0\" aria-hidden=\"true\"><style>:root{--t0:0;--t1:1}thead th:last-child,td:last-child{display:none}\
h1::after{content:\" (incomplete)\"}</style></svg>\n\
<p class=\"broken\" role=\"alert\"><strong>This report is incomplete.</strong> The file was not read to its end: ";

/// The text after the fault.
pub(crate) const MISSING: &[u8] = b".<br>The rows are only some of the periods in question.</p>\n";

/// The text before the script's name in the page's origin.
pub(crate) const SOURCE: &[u8] = b"<h2>Origin</h2>\n<dl>\n<dt>File</dt><dd>";

/// The text before the number of bytes that were read.
pub(crate) const SIZE: &[u8] = b"</dd>\n<dt>Bytes read</dt><dd>";

/// The text in front of the SHA-256 of the bytes.
pub(crate) const HASH: &[u8] = b"</dd>\n<dt>Their SHA-256</dt><dd><code>";

/// The text before the time that the script covers.
pub(crate) const TIME: &[u8] = b"</code></dd>\n<dt>Time covered</dt><dd>";

/// The text before the program's version.
pub(crate) const PROGRAM: &[u8] = b"</dd>\n<dt>Program</dt><dd>";

/// The text before the program's SHA-256.
pub(crate) const PROGRAM_HASH: &[u8] = b"</dd>\n<dt>Its SHA-256</dt><dd><code>";

/// The text before the command that makes the page.
pub(crate) const COMMAND: &[u8] = b"</code></dd>\n\
</dl>\n\
<p>This command makes the page again:</p>\n\
<pre><code>";

/// The end of a page, which states what is proved, and what has to be trusted.
pub(crate) const TRUST: &[u8] = b"</code></pre>\n\
<h2>How far to trust it</h2>\n\
<p><strong>Proved</strong>, and checked by a machine: the rows are the periods in question, each once, with the gaps and\n\
dates that follow from the dates in the file. In the gateway that the file describes, a talker's speech flows to a\n\
listener before a tick if and only if the tick lies in a period of that pair. The file's SHA-256 is that of the bytes\n\
read.</p>\n\
<p><strong>Trusted</strong>, not proved: that the gateway wrote this file, that its clock was right, and who used which\n\
address; how dates are written, the program's SHA-256 and the timeline, which are tested; and the tools of the proof,\n\
the operating system and the browser.</p>\n\
</main>\n\
</body>\n\
</html>\n";
