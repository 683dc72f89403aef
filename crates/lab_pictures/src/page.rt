//! The fixed parts of the HTML page.

/// What stands before the title.
pub fn head() -> &'static str {
    r#"<!DOCTYPE html>
<html lang="en"><head><meta charset="utf-8"><meta name="viewport" content="width=device-width, initial-scale=1">
<title>"#
}

/// What stands between the title and the style.
pub fn title_end() -> &'static str {
    r#": a run, cycle by cycle</title>
<style>
"#
}

/// What stands between the style and the name of the file.
pub fn body() -> &'static str {
    r#"</style></head><body>
<header>
<h1>"#
}

/// What stands between the name of the file and the data.
pub fn panels() -> &'static str {
    r#"</h1>
<p id="end"></p>
<div class="bar" role="group" aria-label="cycle">
<button id="first" type="button" aria-label="first cycle" title="Home">&#124;&#9664;</button>
<button id="back" type="button" aria-label="one cycle back" title="arrow left">&#9664;</button>
<label>cycle <input id="cycle" type="number" inputmode="numeric"></label>
<button id="on" type="button" aria-label="one cycle on" title="arrow right">&#9654;</button>
<button id="last" type="button" aria-label="last cycle" title="End">&#9654;&#124;</button>
<input id="slide" type="range" min="0" value="0" aria-label="cycle, as a slider">
<span class="help">arrow keys, Page Up and Down, Home, End</span>
</div>
<div class="bar" role="group" aria-label="search">
<label>find <select id="kind">
<option value="store">store</option>
<option value="byte">byte to the console</option>
<option value="interrupt">interrupt</option>
<option value="squash">branch that squashes</option>
<option value="line">visit of the line</option>
</select></label>
<label>line <input id="line" type="number" min="1" value="1" inputmode="numeric"></label>
<button id="before" type="button">previous</button>
<button id="after" type="button">next</button>
<span id="found" role="status"></span>
</div>
</header>
<main>
<section aria-labelledby="picture"><h2 id="picture">Fetches by their cycles</h2>
<p class="help">dashed: waits for the cache; dotted: held by a stalled cycle; struck: squashed; red: killed by an interrupt; req: a request arrives; int: an interrupt is taken; arrows: which way the operands of the word in ALU came, short ones from the file</p>
<div id="view" class="view" tabindex="0" role="region" aria-label="fetches by their cycles"><div id="sizer" class="sizer">
<div id="heads"></div><div id="now"></div><div id="rows"></div><svg id="ways" aria-hidden="true"></svg></div></div>
</section>
<div id="right">
<section class="wide" aria-labelledby="stage"><h2 id="stage">Stages</h2><p id="told" role="status" hidden></p><table id="stages"></table></section>
<section aria-labelledby="text"><h2 id="text">Source</h2><div id="source" class="view" tabindex="0" role="region" aria-label="source"></div></section>
<section aria-labelledby="list"><h2 id="list">Listing</h2><div id="listing" class="view" tabindex="0" role="region" aria-label="listing"></div></section>
<section aria-labelledby="register"><h2 id="register">Registers</h2><div class="view" tabindex="0" role="region" aria-label="registers"><table id="registers"></table></div></section>
<section aria-labelledby="word"><h2 id="word">Data words</h2><div id="words" class="view" tabindex="0" role="region" aria-label="data words"></div></section>
<section aria-labelledby="sent"><h2 id="sent">Console</h2><div class="view" tabindex="0" role="region" aria-label="console"><pre id="console"></pre></div></section>
<section aria-labelledby="count"><h2 id="count">Counts</h2><div class="view" tabindex="0" role="region" aria-label="counts"><table id="counts"></table></div></section>
</div>
</main>
<script type="application/json" id="data">
"#
}

/// What stands between the data and the script.
pub fn data_end() -> &'static str {
    r#"</script>
<script>
"#
}

/// What stands behind the script.
pub fn tail() -> &'static str {
    r#"</script></body></html>
"#
}
