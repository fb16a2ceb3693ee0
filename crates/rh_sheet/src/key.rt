//! How the figures of a sheet are read.

/// Some sentences, and a key of the signs.
pub const KEY: &[u8] = b"\
<p>Each step is a command of the script, its reply, and what memory looks like after it. The first figure is the
pool of all pages: a tint and three letters say whose each page is. Below it stand the slots of the tasks and the module
area, drawn to scale: a row is a page of 4,096 bytes, with its address and its number in the pool. Addresses go up from
left to right, and from each row to the one above. What is too small to be read there is written on a card.</p>
<p>What a command has changed has a thick edge. The small arrows of a step lead to the steps before and after it; a
link to a step shows that step alone.</p>
<ul class=\"key\">
<li><svg viewBox=\"0 0 44 18\" aria-hidden=\"true\">\
<rect class=\"anchors\" x=\"1\" y=\"1\" width=\"42\" height=\"16\"/>\
<path class=\"tick\" d=\"M6 1v16M17 1v16\"/></svg>anchor words, with a tick for each in use</li>
<li><svg viewBox=\"0 0 44 18\" aria-hidden=\"true\">\
<rect class=\"head\" x=\"20\" y=\"1\" width=\"4\" height=\"16\"/>\
</svg>where a heap begins</li>
<li><svg viewBox=\"0 0 44 18\" aria-hidden=\"true\">\
<rect class=\"used t0\" x=\"1\" y=\"1\" width=\"42\" height=\"16\"/>\
</svg>a block of a heap, which stays where it is</li>
<li><svg viewBox=\"0 0 44 18\" aria-hidden=\"true\">\
<rect class=\"hole\" x=\"1\" y=\"1\" width=\"42\" height=\"16\"/>\
</svg>a hole of a heap</li>
<li><svg viewBox=\"0 0 44 18\" aria-hidden=\"true\">\
<rect class=\"flex t0\" x=\"1\" y=\"1\" width=\"42\" height=\"16\"/>\
</svg>a flex block, which may slide</li>
<li><svg viewBox=\"0 0 44 18\" aria-hidden=\"true\">\
<rect class=\"row\" x=\"1\" y=\"1\" width=\"42\" height=\"16\"/>\
</svg>free, or not used</li>
<li><svg viewBox=\"0 0 44 18\" aria-hidden=\"true\">\
<rect class=\"freed\" x=\"2\" y=\"2\" width=\"40\" height=\"14\"/></svg>\
given back by the command</li>
<li><svg viewBox=\"0 0 44 18\" aria-hidden=\"true\">\
<path class=\"ghost\" d=\"M2 1h9v16h-9z\"/>\
<path class=\"slide\" d=\"M13 9h24\"/></svg>from where to where flex blocks slid</li>
<li><svg viewBox=\"0 0 44 18\" aria-hidden=\"true\">\
<path class=\"msg\" d=\"M1 4h34\"/>\
<path class=\"msg waits\" d=\"M1 14h34\"/></svg>a message that was taken, and one that wasn't</li>
<li><svg viewBox=\"0 0 44 18\" aria-hidden=\"true\">\
<path class=\"msg held\" d=\"M1 5h20\"/>\
<path class=\"msg vanished\" d=\"M1 12h34\"/></svg>one that is held, and one that vanished</li>
</ul>
";
